// A recorded plain index: its training and its searches, replayed by our code.
use answers::Untrained;
use lending::buffers::{DIRTY_BYTE, DIRTY_FLOAT, DIRTY_NUMBER, DRAWS, ROWS};
use lending::held::held;
use lending::listed;
use lending::parts::first;
use pq_params::{PlainLengths, Shape};
use recorded::layout::{after, count};
use recorded::{compare, layout};

// The numbers before the lists.
#[derive(Clone, Copy, Debug, PartialEq, Eq)]
struct Numbers {
    shape: Shape,
    epochs: usize,
    n: usize,
    draws: usize,
    queries: usize,
}

// Where each list after the rows begins, in words, and the answer begins with the draws used.
#[derive(Clone, Copy, Debug, PartialEq, Eq)]
struct Offsets {
    draws: usize,
    used: usize,
    subs: usize,
    codes: usize,
    queries: usize,
}

// An index that a training made.
#[derive(Clone, Copy, Debug, PartialEq)]
struct Index<'a> {
    numbers: Numbers,
    subs: &'a [f32],
    codes: &'a [u8],
}

// The rows begin after the numbers.
const FIRST_ROW: usize = 8;

// The numbers of a body.
fn numbers_of(body: &[u8]) -> Numbers {
    let shape = Shape {
        d: count(body, 0),
        nsub: count(body, 1),
        bits: count(body, 2),
    };
    Numbers {
        shape,
        epochs: count(body, 3),
        n: count(body, 4),
        draws: count(body, 5),
        queries: count(body, 6),
    }
}

// Where the lists are.
fn offsets_of(h: Numbers, l: PlainLengths) -> Offsets {
    let draws = after(FIRST_ROW, l.rows);
    let used = after(after(draws, h.draws), h.draws);
    let subs = after(used, 1);
    let codes = after(subs, l.subs);
    Offsets {
        draws,
        used,
        subs,
        codes,
        queries: after(codes, layout::padded(l.codes)),
    }
}

// Whether a training ended with the recorded answer.
fn is_trained(body: &[u8], p: Offsets, t: Result<usize, Untrained>, x: Index<'_>) -> bool {
    t == Ok(count(body, p.used))
        && compare::same(body, p.subs, x.subs)
        && compare::bytes(body, p.codes, x.codes)
}

// Whether the search that is recorded at a place has the recorded answer, in the first elements of larger buffers that nobody wrote. All
// rows are visible.
fn finds(body: &[u8], at: usize, x: Index<'_>) -> bool {
    let h = x.numbers;
    let k = count(body, at);
    let mask = [128u8; 512];
    let mut query = [0.0f32; 256];
    layout::load(body, after(at, 1), &mut query);
    let mut rows = [DIRTY_NUMBER; 600];
    let mut sums = [DIRTY_FLOAT; 600];
    let mut table = [DIRTY_FLOAT; ROWS];
    let r = held(&rows, k);
    let s = held(&sums, k);
    let t = held(&table, pq_params::plain_lengths(h.shape, h.n).table);
    let rows = &mut rows[..r];
    let sums = &mut sums[..s];
    let table = &mut table[..t];
    let answer = plain_search::search(
        h.shape,
        h.n,
        first(&query, h.shape.d),
        first(&mask, h.n),
        x.subs,
        x.codes,
        rows,
        sums,
        table,
    );
    compare::found(
        body,
        after(after(at, 1), h.shape.d),
        answer,
        rows,
        sums,
        table,
    )
}

// Whether all recorded searches have their answers, and the body ends after them.
fn finds_all(body: &[u8], begin: usize, x: Index<'_>) -> bool {
    let mut at = begin;
    for _ in 0..x.numbers.queries {
        if !finds(body, at, x) {
            return false;
        }
        at = layout::after_search(body, at, x.numbers.shape.d);
    }
    layout::ends(body, at)
}

// Whether a training of some rows with some draws, in the first elements of larger buffers that nobody wrote, ends with the recorded
// answer, leaves work zero, and makes an index whose searches have theirs.
fn replays(body: &[u8], numbers: Numbers, l: PlainLengths, rows: &[f32], draws: &[f64]) -> bool {
    let mut subs = [DIRTY_FLOAT; ROWS];
    let mut codes = [DIRTY_BYTE; ROWS];
    let mut work = [DIRTY_NUMBER; 1_536];
    let s = held(&subs, l.subs);
    let c = held(&codes, l.codes);
    let w = held(&work, l.work);
    let subs = &mut subs[..s];
    let codes = &mut codes[..c];
    let work = &mut work[..w];
    let t = plain_train::train(
        numbers.shape,
        numbers.epochs,
        numbers.n,
        rows,
        draws,
        subs,
        codes,
        work,
    );
    let p = offsets_of(numbers, l);
    let x = Index {
        numbers,
        subs,
        codes,
    };
    is_trained(body, p, t, x) && listed::are(work, 0) && finds_all(body, p.queries, x)
}

// Whether a recorded plain index agrees. One that is laid out otherwise, or that the buffers do not hold, does not.
pub(crate) fn agrees(body: &[u8]) -> bool {
    let h = numbers_of(body);
    let l = pq_params::plain_lengths(h.shape, h.n);
    let mut rows = [0.0f32; ROWS];
    let mut draws = [0.0f64; DRAWS];
    layout::load(body, FIRST_ROW, &mut rows);
    layout::load(body, offsets_of(h, l).draws, &mut draws);
    replays(body, h, l, first(&rows, l.rows), first(&draws, h.draws))
}
