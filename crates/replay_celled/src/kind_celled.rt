// A recorded celled index: its training and its searches, replayed by our code.
use crate::place;
use crate::place::{Numbers, Offsets};
use celled_lists::CelledIndex;
use lending::buffers::{DIRTY_BYTE, DIRTY_FLOAT, DIRTY_NUMBER, DRAWS, ROWS};
use lending::held::held;
use lending::listed;
use lending::parts::first;
use pq_params::CelledLengths;
use recorded::layout::{after, count};
use recorded::{compare, layout};

// Whether an index is the one recorded.
fn is_index(body: &[u8], p: Offsets, x: &CelledIndex<'_>) -> bool {
    compare::same(body, p.coarse, x.coarse)
        && compare::same(body, p.starts, x.starts)
        && compare::same(body, p.members, x.members)
        && compare::same(body, p.subs, x.subs)
        && compare::bytes(body, p.codes, x.codes)
}

// Whether the whole check, in the first elements of a larger buffer that nobody wrote, accepts an index and leaves work zero.
fn is_whole(x: &CelledIndex<'_>) -> bool {
    let mut work = [DIRTY_NUMBER; 1_536];
    let w = held(&work, pq_params::celled_lengths(x.shape, x.n).work);
    let work = &mut work[..w];
    let checked = celled_check::check(
        x.shape, x.n, x.coarse, x.starts, x.members, x.subs, x.codes, work,
    );
    answers::check_answer(checked) == 0 && listed::are(work, 0)
}

// Whether the search that is recorded at a place has the recorded answer, in the first elements of larger buffers that nobody wrote. All
// rows are visible.
fn finds(body: &[u8], at: usize, x: &CelledIndex<'_>) -> bool {
    let d = x.shape.plain.d;
    let k = count(body, at);
    let mask = [128u8; 512];
    let mut query = [0.0f32; 256];
    layout::load(body, after(at, 1), &mut query);
    let mut rows = [DIRTY_NUMBER; 600];
    let mut sums = [DIRTY_FLOAT; 600];
    let mut table = [DIRTY_FLOAT; ROWS];
    let r = held(&rows, k);
    let s = held(&sums, k);
    let t = held(&table, pq_params::celled_lengths(x.shape, x.n).table);
    let rows = &mut rows[..r];
    let sums = &mut sums[..s];
    let table = &mut table[..t];
    let answer = celled_search::search(
        x.shape,
        x.n,
        first(&query, d),
        first(&mask, x.n),
        x.coarse,
        x.starts,
        x.members,
        x.subs,
        x.codes,
        rows,
        sums,
        table,
    );
    compare::found(body, after(after(at, 1), d), answer, rows, sums, table)
}

// Whether so many recorded searches have their answers, and the body ends after them.
fn finds_all(body: &[u8], begin: usize, queries: usize, x: &CelledIndex<'_>) -> bool {
    let mut at = begin;
    for _ in 0..queries {
        if !finds(body, at, x) {
            return false;
        }
        at = layout::after_search(body, at, x.shape.plain.d);
    }
    layout::ends(body, at)
}

// Whether an index that a training made is the one recorded, is whole, and finds what is recorded.
fn is_replayed(body: &[u8], h: Numbers, p: Offsets, x: &CelledIndex<'_>) -> bool {
    is_index(body, p, x) && is_whole(x) && finds_all(body, p.queries, h.queries, x)
}

// Whether a training of some rows with some draws, in the first elements of larger buffers that nobody wrote, ends with the recorded
// answer, leaves work zero, and makes the recorded index.
fn replays(body: &[u8], h: Numbers, l: CelledLengths, rows: &[f32], draws: &[f64]) -> bool {
    let mut coarse = [DIRTY_FLOAT; ROWS];
    let mut starts = [DIRTY_NUMBER; 1_025];
    let mut members = [DIRTY_NUMBER; 512];
    let mut subs = [DIRTY_FLOAT; ROWS];
    let mut codes = [DIRTY_BYTE; ROWS];
    let mut work = [DIRTY_NUMBER; 1_536];
    let a = held(&coarse, l.coarse);
    let b = held(&starts, l.starts);
    let m = held(&members, l.members);
    let s = held(&subs, l.subs);
    let c = held(&codes, l.codes);
    let w = held(&work, l.work);
    let coarse = &mut coarse[..a];
    let starts = &mut starts[..b];
    let members = &mut members[..m];
    let subs = &mut subs[..s];
    let codes = &mut codes[..c];
    let work = &mut work[..w];
    let trained = celled_train::train(
        h.shape, h.epochs, h.n, rows, draws, coarse, starts, members, subs, codes, work,
    );
    let p = place::offsets_of(h, l);
    let x = CelledIndex {
        shape: h.shape,
        n: h.n,
        coarse,
        starts,
        members,
        subs,
        codes,
    };
    trained == Ok(count(body, p.used)) && listed::are(work, 0) && is_replayed(body, h, p, &x)
}

// Whether a recorded celled index agrees. One that is laid out otherwise, or that the buffers do not hold, does not.
pub(crate) fn agrees(body: &[u8]) -> bool {
    let h = place::numbers_of(body);
    let l = pq_params::celled_lengths(h.shape, h.n);
    let mut rows = [0.0f32; ROWS];
    let mut draws = [0.0f64; DRAWS];
    layout::load(body, place::FIRST_ROW, &mut rows);
    layout::load(body, place::offsets_of(h, l).draws, &mut draws);
    replays(body, h, l, first(&rows, l.rows), first(&draws, h.draws))
}
