// Where things stand in the body of a recorded celled index.
use pq_params::{CelledLengths, CelledShape, Shape};
use recorded::layout;
use recorded::layout::{after, count};

// The numbers before the lists.
#[derive(Clone, Copy, Debug, PartialEq, Eq)]
pub(crate) struct Numbers {
    pub(crate) shape: CelledShape,
    pub(crate) epochs: usize,
    pub(crate) n: usize,
    pub(crate) draws: usize,
    pub(crate) queries: usize,
}

// Where each list after the rows begins, in words, and the answer begins with the draws used.
#[derive(Clone, Copy, Debug, PartialEq, Eq)]
pub(crate) struct Offsets {
    pub(crate) draws: usize,
    pub(crate) used: usize,
    pub(crate) coarse: usize,
    pub(crate) starts: usize,
    pub(crate) members: usize,
    pub(crate) subs: usize,
    pub(crate) codes: usize,
    pub(crate) queries: usize,
}

// The rows begin after the numbers.
pub(crate) const FIRST_ROW: usize = 10;

// The numbers of a body.
pub(crate) fn numbers_of(body: &[u8]) -> Numbers {
    let plain = Shape {
        d: count(body, 0),
        nsub: count(body, 1),
        bits: count(body, 2),
    };
    let shape = CelledShape {
        plain,
        cells: count(body, 3),
        probes: count(body, 4),
    };
    Numbers {
        shape,
        epochs: count(body, 5),
        n: count(body, 6),
        draws: count(body, 7),
        queries: count(body, 8),
    }
}

// Where the lists are.
pub(crate) fn offsets_of(h: Numbers, l: CelledLengths) -> Offsets {
    let draws = after(FIRST_ROW, l.rows);
    let used = after(after(draws, h.draws), h.draws);
    let coarse = after(used, 1);
    let starts = after(coarse, l.coarse);
    let members = after(starts, l.starts);
    let subs = after(members, l.members);
    let codes = after(subs, l.subs);
    Offsets {
        draws,
        used,
        coarse,
        starts,
        members,
        subs,
        codes,
        queries: after(codes, layout::padded(l.codes)),
    }
}
