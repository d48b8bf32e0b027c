// How many cases there were, how many of them agree, and the line that says so.
ghost use Rattle.std.specs.Prelude.{◌≡◌, eqb, decimal, IfOk, OnOk, OnErr};
ghost use Rattle.lending.specs.Tally.{more_of, counted_of, line_of};
ghost use Rattle.lending.specs.Failed.{AppendsFront};
ghost use Rattle.std.specs.Io.KnownBytes.{Appends};

use itoa::Buffer;
use std::io;
use std::io::{ErrorKind, Write};

// The cases so far, and those of them that agree.
#[derive(Clone, Copy, Debug, Default, PartialEq, Eq)]
pub struct Tally {
    pub agree: u64,
    pub of: u64,
}

// One more; no count comes near the bound.
#[tactic(auto, unfolding(crate::specs::Tally::more_of))]
fn more(x: u64) -> u64
    ensures { result ≡ more_of x }
{
    if x < 1_000_000_000 { x + 1 } else { x }
}

// One more case.
#[tactic(auto, unfolding(crate::specs::Tally::counted_of))]
pub fn counted(t: Tally, agrees: bool) -> Tally
    ensures { result ≡ counted_of t agrees }
{
    let agree = if agrees { more(t.agree) } else { t.agree };
    Tally {
        agree,
        of: more(t.of),
    }
}

// Words to a writer, all of them: where it takes some, it is given the others. Not by `write_all`, which says nothing of what an error leaves.
fn say<W: Write>(out: &mut W, words: &[u8]) -> io::Result<()>
    ensures said { OnOk result (Appends (W.contents out.old) (W.contents out.new) words.now) }
    ensures failed { OnErr result (AppendsFront (W.contents out.old) (W.contents out.new) words.now) }
{
    let mut rest = words;
    for _ in 0..u64::MAX {
        if rest.is_empty() {
            return Ok(());
        }
        match out.write(rest) {
            Ok(0) => return Err(io::Error::from(ErrorKind::WriteZero)),
            Ok(n) => rest = &rest[n..],
            Err(e) if e.kind() == ErrorKind::Interrupted => {}
            Err(e) => return Err(e),
        }
    }
    Err(io::Error::from(ErrorKind::TimedOut))
}

// A number to a writer, in decimal.
fn say_number<W: Write>(out: &mut W, x: u64) -> io::Result<()>
    ensures said { OnOk result (Appends (W.contents out.old) (W.contents out.new) (decimal x)) }
    ensures failed { OnErr result (AppendsFront (W.contents out.old) (W.contents out.new) (decimal x)) }
{
    let mut digits = Buffer::new();
    say(out, digits.format(x).as_bytes())
}

// Says on a line how many agree, of how many; whether all do.
pub fn say_tally<W: Write>(out: &mut W, name: &[u8], t: Tally) -> io::Result<bool>
    ensures all { IfOk result (λ all. all ≡ eqb t.agree t.of) }
    ensures line { OnOk result (Appends (W.contents out.old) (W.contents out.new) (line_of name.now t)) }
    ensures failed { OnErr result (AppendsFront (W.contents out.old) (W.contents out.new) (line_of name.now t)) }
{
    say(out, name)?;
    say_number(out, t.agree)?;
    say(out, b" of ")?;
    say_number(out, t.of)?;
    say(out, b"\n")?;
    Ok(t.agree == t.of)
}
