// A recorded k-means: its numbers, its lists and its answer, replayed by our code.
use crate::checked;
use kmeans_assign::{Frame, Given};
use lending::buffers::{DRAWS, filled};
use lending::parts::first;
use recorded::layout::{after, count, product};
use recorded::{compare, layout};

// The numbers before the lists.
#[derive(Clone, Copy, Debug, PartialEq, Eq)]
struct Numbers {
    d: usize,
    n: usize,
    begin: usize,
    end: usize,
    members: usize,
    // The file's word; the residual itself stands behind the rows.
    has_residual: bool,
    centers: usize,
    epochs: u32,
    draws: usize,
}

// Where each list after the rows begins, in words, the answer begins with the draws used, and the body ends.
#[derive(Clone, Copy, Debug, PartialEq, Eq)]
struct Offsets {
    members: usize,
    residual: usize,
    draws: usize,
    used: usize,
    centers: usize,
    assigned: usize,
    end: usize,
}

// The rows begin after the numbers.
const FIRST_ROW: usize = 9;

// The numbers of a body.
fn numbers_of(body: &[u8]) -> Numbers {
    Numbers {
        d: count(body, 0),
        n: count(body, 1),
        begin: count(body, 2),
        end: count(body, 3),
        members: count(body, 4),
        has_residual: count(body, 5) == 1,
        centers: count(body, 6),
        epochs: layout::word(body, 7),
        draws: count(body, 8),
    }
}

// The width of the range.
fn width(h: Numbers) -> usize {
    h.end.saturating_sub(h.begin)
}

// Where the lists are. The residual has d words, if there is one.
fn offsets_of(h: Numbers) -> Offsets {
    let members = after(FIRST_ROW, product(h.n, h.d));
    let residual = after(members, h.members);
    let draws = after(residual, if h.has_residual { h.d } else { 0 });
    let used = after(after(draws, h.draws), h.draws);
    let centers = after(used, 1);
    let assigned = after(centers, product(h.centers, width(h)));
    Offsets {
        members,
        residual,
        draws,
        used,
        centers,
        assigned,
        end: after(assigned, h.members),
    }
}

// The frame of a case.
fn frame_of(h: Numbers) -> Frame {
    Frame {
        d: h.d,
        begin: h.begin,
        w: width(h),
        n: h.members,
        centers: h.centers,
    }
}

// Whether a list of rows names each row of n in order, so that k-means may go over all rows without it.
fn names_all(members: &[u32], n: usize) -> bool {
    members.len() == n
        && members
            .iter()
            .enumerate()
            .all(|(k, m)| lists::wide(*m) == k)
}

// Whether our k-means has the recorded answer, and leaves the recorded centres and last assignment.
fn answers(body: &[u8], p: Offsets, g: Given<'_>, epochs: u32, draws: &[f64]) -> bool {
    let mut centers: [f32; 65_536] = filled(0.0);
    let mut assigned = [0u32; 512];
    let mut counts = [0u32; 1_024];
    let ran = checked::run(
        g,
        epochs,
        false,
        draws,
        &mut centers,
        &mut assigned,
        &mut counts,
    );
    let long = product(g.frame.centers, g.frame.w);
    ran == Ok(count(body, p.used))
        && compare::same(body, p.centers, first(&centers, long))
        && compare::same(body, p.assigned, first(&assigned, g.frame.n))
}

// Whether our k-means has the recorded answer over a list of rows, and if the list names all rows, without it too.
fn both(
    body: &[u8],
    h: Numbers,
    rows: &[f32],
    list: &[u32],
    residual: Option<&[f32]>,
    draws: &[f64],
) -> bool {
    let p = offsets_of(h);
    let frame = frame_of(h);
    let listed = Given {
        frame,
        rows,
        members: Some(list),
        residual,
    };
    if !answers(body, p, listed, h.epochs, draws) {
        return false;
    }
    let all = Given {
        frame,
        rows,
        members: None,
        residual,
    };
    !names_all(list, h.n) || answers(body, p, all, h.epochs, draws)
}

// Whether a recorded k-means agrees. A body that is not of the length that its numbers say, or that the buffers do not hold, does not.
pub(crate) fn agrees(body: &[u8]) -> bool {
    let h = numbers_of(body);
    let p = offsets_of(h);
    if !layout::ends(body, p.end) {
        return false;
    }
    let mut rows: [f32; 16_384] = filled(0.0);
    let mut members = [0u32; 512];
    let mut residual = [0.0f32; 256];
    let mut draws: [f64; DRAWS] = filled(0.0);
    layout::load(body, FIRST_ROW, &mut rows);
    layout::load(body, p.members, &mut members);
    layout::load(body, after(p.residual, h.begin), &mut residual);
    layout::load(body, p.draws, &mut draws);
    let taken = first(&residual, width(h));
    both(
        body,
        h,
        first(&rows, product(h.n, h.d)),
        first(&members, h.members),
        if h.has_residual { Some(taken) } else { None },
        first(&draws, h.draws),
    )
}
