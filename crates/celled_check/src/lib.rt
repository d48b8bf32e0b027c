// The whole check of a celled index: refusals first, then one walk each of the starts, the cells' lists, the members and the codes.
// While it runs, the lent work holds how often each row number stands in the members.
// The entry point's parameters stay flat, as C lends them.
#![tactic(auto)]

ghost use Rattle.std.specs.Prelude.{true, ◌≡◌, ◌≤◌, length};
ghost use Rattle.lists.specs.Tests.{every};
ghost use Rattle.celled_lists.specs.Lists.{starts_sound, is_below};
ghost use Rattle.celled_lists.specs.Index.{index_in, index_of};
ghost use Rattle.celled_check.specs.Check.{cell_sound, check_in, check_out, checked, check_outcome};
ghost use Rattle.celled_check.specs.CheckInner.{refusal_by, is_one, cells_sound, Lists, Once, Ready};

use answers::Refusal;
use celled_lists::CelledIndex;
use pq_params::CelledShape;

// Tests 1, 3, 4 in that order: the first that refuses.
fn check_refusal(x: &CelledIndex<'_>, work: usize) -> Result<(), Refusal>
    ensures { result ≡ refusal_by (index_in x.now) work }
{
    let bad = pq_params::bad_celled(x.shape);
    let long = pq_params::celled_lengths(x.shape, x.n);
    let index = celled_lists::bad_index_lengths(x.shape, x.n, x.lengths());
    pq_params::check_refusal(bad, x.n, index | (work != long.work))
}

// Whether the list of every cell is sound. Not by `all`, which leaves at the first that is not.
fn lists_sound(x: &CelledIndex<'_>) -> bool
    requires { let i = index_in x.now in Lists i × (starts_sound i.starts i.shape.cells i.n ≡ true) }
    ensures { let i = index_in x.now in result ≡ every (cell_sound i.starts i.members i.n) i.shape.cells }
{
    let mut sound = true;
    for c in 0..x.shape.cells {
        sound &= celled_lists::list_sound(x.list(c), x.n);
    }
    sound
}

// Whether the starts are sound, and then the lists.
fn cells_sound(x: &CelledIndex<'_>) -> bool
    requires { Lists (index_in x.now) }
    ensures { result ≡ cells_sound (index_in x.now) }
{
    celled_lists::starts_sound(x.starts, x.shape.cells, x.n) && lists_sound(x)
}

// Whether each of the counts is 1.
fn all_one(counts: &[u32]) -> bool
    ensures { result ≡ every (is_one counts.now) (length counts.now) }
{
    let mut one = true;
    for count in counts {
        one &= *count == 1;
    }
    one
}

// Whether every row number stands once in the members. Work is zero afterwards.
fn rows_once(members: &[u32], n: usize, work: &mut [u32]) -> bool
    requires { (length members.now ≤ 100_001) × (n ≤ length work.old) }
    ensures { Once members.now work.old n result work.new }
{
    celled_lists::count_rows(members, work);
    let once = all_one(&work[..n]);
    lists::fill(work, 0);
    once
}

// Whether every code is below K. (Row numbers have a test of their own: no trait makes both a u8 and a u32 a usize.) By number, so that an
// edit can leave out the first code and nothing else.
fn codes_below(codes: &[u8], centers: usize) -> bool
    ensures { result ≡ every (is_below codes.now centers) (length codes.now) }
{
    let mut below = true;
    for p in 0..codes.len() {
        below &= lists::wide_byte(codes[p]) < centers;
    }
    below
}

// The check of an index that tests 1, 3 and 4 let pass: list or code damage refuses with 10.
fn check_ready(x: &CelledIndex<'_>, work: &mut [u32]) -> Result<(), Refusal>
    requires { Ready (index_in x.now) work.old }
    ensures { check_out result work.new ≡ checked (check_in (index_in x.now) work.old) }
{
    let centers = pq_params::centers(x.shape.plain.bits);
    let in_order = cells_sound(x);
    let once = rows_once(x.members, x.n, work);
    let below = codes_below(x.codes, centers);
    if in_order & once & below {
        Ok(())
    } else {
        Err(Refusal::Damaged)
    }
}

// The whole check, for any input: whether starts go from 0 to n and never fall, every row number stands once in the members, each cell
// rises and all codes are below K.
pub fn check(
    s: CelledShape,
    n: usize,
    coarse: &[f32],
    starts: &[u32],
    members: &[u32],
    subs: &[f32],
    codes: &[u8],
    work: &mut [u32],
) -> Result<(), Refusal>
    ensures { check_out result work.new ≡ check_outcome (check_in (index_of s n coarse.now starts.now
        members.now subs.now codes.now) work.old) }
{
    let x = CelledIndex {
        shape: s,
        n,
        coarse,
        starts,
        members,
        subs,
        codes,
    };
    check_refusal(&x, work.len())?;
    check_ready(&x, work)
}
