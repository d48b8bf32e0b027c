// Replaying a recorded file, case after case.
ghost use Rattle.std.specs.Prelude.{◌≡◌, Bool, List, length};
ghost use Rattle.std.specs.Fn.{FnReturnsAt};
ghost use Rattle.recorded.specs.Layout.{cases_of};
ghost use Rattle.recorded.specs.Replay.{Answered, replayed};

use crate::layout;
use lending::tally::{Tally, counted};

// How many cases of a kind agree, and of how many: each as `agrees` says of its body. What stands after the last one counts as one more
// that does not agree.
pub fn replayed<F: Fn(&[u8]) -> bool>(file: &[u8], kind: u32, agrees: F) -> Tally
    requires { F.IsAlwaysCallable agrees }
    ensures { (answers : List Bool) × (length answers ≡ cases_of file.now) × Answered (FnReturnsAt F.Fn agrees) file.now kind answers
        × (result ≡ replayed file.now answers) }
{
    let mut t = Tally::default();
    let mut at = layout::FIRST;
    for i in 0..layout::cases(file) {
        let agree = agrees(layout::body(file, at, kind));
        t = counted(t, agree);
        at = layout::next(file, at);
    }
    if layout::ends(file, at) {
        t
    } else {
        counted(t, false)
    }
}
