// Document 01's worked examples of k-means, in a table.
use crate::checked;
use crate::checked::Failed;
use answers::{Place, Stage, TrainAnswer};
use kmeans_assign::{Frame, Given};
use lending::listed::same;
use lending::parts::first;
use lending::tally;
use lending::tally::Tally;

// What comes out, as a training says it whose coarse k-means this is.
#[derive(Clone, Copy, Debug, PartialEq)]
enum Expected {
    // The number and place of an 8 or 9; what the buffers hold then is not said.
    Stopped {
        number: u32,
        place: Place,
    },
    // The draws used, the centres, how many rows each has, and the last assignment.
    Done {
        used: usize,
        at: &'static [f32],
        counts: &'static [u32],
        assigned: &'static [u32],
    },
}

// An example: rows of two coordinates, the number of centres, the epochs, whether a split follows, and the draws lent.
#[derive(Clone, Copy, Debug, PartialEq)]
struct Example {
    rows: &'static [f32],
    centers: usize,
    epochs: u32,
    splits: bool,
    draws: &'static [f64],
    expected: Expected,
}

// The examples.
static EXAMPLES: [Example; 5] = [
    // Rows (1,2), (3,4), four centres: the start, and the rows assigned to 0 and 1
    Example {
        rows: &[1.0, 2.0, 3.0, 4.0],
        centers: 4,
        epochs: 0,
        splits: false,
        draws: &[],
        expected: Expected::Done {
            used: 0,
            at: &[1.0, 2.0, 3.0, 2.0, 1.0, 2.0, 3.0, 2.0],
            counts: &[0, 0, 0, 0],
            assigned: &[0, 1],
        },
    },
    // the average
    Example {
        rows: &[1.0, 2.0, 3.0, 4.0],
        centers: 4,
        epochs: 1,
        splits: false,
        draws: &[],
        expected: Expected::Done {
            used: 0,
            at: &[1.0, 2.0, 3.0, 4.0, 0.0, 0.0, 0.0, 0.0],
            counts: &[1, 1, 0, 0],
            assigned: &[0, 1],
        },
    },
    // its split
    Example {
        rows: &[1.0, 2.0, 3.0, 4.0],
        centers: 4,
        epochs: 1,
        splits: true,
        draws: &[0.0, 0.25, 0.5, 0.4],
        expected: Expected::Done {
            used: 4,
            at: &[
                1.0009765625,
                1.998046875,
                3.0029296875,
                3.99609375,
                0.9990234375,
                2.001953125,
                2.9970703125,
                4.00390625,
            ],
            counts: &[1, 1, 0, 0],
            assigned: &[0, 1],
        },
    },
    // the split with three draws: 8
    Example {
        rows: &[1.0, 2.0, 3.0, 4.0],
        centers: 4,
        epochs: 1,
        splits: true,
        draws: &[0.0, 0.25, 0.5],
        expected: Expected::Stopped {
            number: 8,
            place: Place {
                stage: 0,
                cell: 0,
                sub: 0,
                step: 2,
                epoch: 1,
                center: 3,
            },
        },
    },
    // five equal rows, all of which one centre has: a donor count of 5 gives 2 and 3
    Example {
        rows: &[1.0, 2.0, 1.0, 2.0, 1.0, 2.0, 1.0, 2.0, 1.0, 2.0],
        centers: 2,
        epochs: 1,
        splits: true,
        draws: &[0.0],
        expected: Expected::Done {
            used: 1,
            at: &[1.0009765625, 1.998046875, 0.9990234375, 2.001953125],
            counts: &[3, 2],
            assigned: &[0, 0, 0, 0, 0],
        },
    },
];

// What an example's k-means goes over: all rows, of two coordinates.
fn given(e: &Example) -> Given<'_> {
    let frame = Frame {
        d: 2,
        begin: 0,
        w: 2,
        n: e.rows.len() / 2,
        centers: e.centers,
    };
    Given {
        frame,
        rows: e.rows,
        members: None,
        residual: None,
    }
}

// What a training says whose coarse k-means ran so; none where it was left out.
fn said(ran: Result<usize, Failed>) -> Option<TrainAnswer> {
    let clustered = match ran {
        Ok(used) => Ok(used),
        Err(Failed::Stopped(why)) => Err(why),
        Err(Failed::Unfit) => return None,
    };
    Some(answers::train_answer(answers::at_stage(Stage::Coarse, clustered)))
}

// Whether an answer, and the centres, assignment and counts that it leaves, are those expected.
fn is_expected(
    x: &Expected,
    a: TrainAnswer,
    centers: &[f32],
    assigned: &[u32],
    counts: &[u32],
) -> bool {
    match *x {
        Expected::Stopped { number, place } => a.number == number
            && a.place == place
            && a.used == 0,
        Expected::Done {
            used,
            at,
            counts: held,
            assigned: to,
        } => a.number == 0
            && a.used == used
            && same(centers, at, 0.0)
            && same(assigned, to, 0)
            && same(counts, held, 0),
    }
}

// Whether an example comes out as document 01 says.
fn agrees(e: &Example) -> bool {
    let mut centers = [0.0f32; 8];
    let mut assigned = [0u32; 5];
    let mut counts = [0u32; 4];
    let g = given(e);
    let ran = checked::run(
        g,
        e.epochs,
        e.splits,
        e.draws,
        &mut centers,
        &mut assigned,
        &mut counts,
    );
    let Some(a) = said(ran) else {
        return false;
    };
    is_expected(
        &e.expected,
        a,
        first(&centers, recorded::layout::product(e.centers, 2)),
        first(&assigned, g.frame.n),
        first(&counts, e.centers),
    )
}

// How many of the examples come out as document 01 says; their type is this file's.
pub(crate) fn agreeing() -> Tally {
    let mut t = Tally::default();
    for e in &EXAMPLES {
        t = tally::counted(t, agrees(e));
    }
    t
}
