// Examples of the plain training, in a table: what document 01 says of each, beside its neighbour.
use crate::given;
use answers::{Place, TrainAnswer};
use lending::buffers::{DIRTY_BYTE, DIRTY_FLOAT, DIRTY_NUMBER, ROWS, WORK};
use lending::held::held;
use lending::listed::{are, same};
use lending::parts::first;
use lending::tally::{Tally, counted};
use pq_params::Shape;

// What is lent: so many coordinates of rows, draws, sub-centres, codes and words of work.
#[derive(Clone, Copy, Debug, PartialEq, Eq)]
struct Lent {
    rows: usize,
    draws: usize,
    subs: usize,
    codes: usize,
    work: usize,
}

// The steps of a place, and the place of an answer that names none.
const START: u32 = 0;

const SPLITTING: u32 = 2;

const NO_PLACE: Place = Place {
    stage: 0,
    cell: 0,
    sub: 0,
    step: 0,
    epoch: 0,
    center: 0,
};

// What comes out, in document 01's numbers.
#[derive(Clone, Copy, Debug, PartialEq)]
enum Expected {
    // Refused by test 1 to 7: sub-centres, codes and work are as they were.
    Refused {
        number: u32,
    },
    // 8 or 9, with its place: sub-centres, codes and work are zero.
    Stopped {
        number: u32,
        place: Place,
    },
    // The draws used, the first coordinates of the sub-centres, the rest being 0, and the last code, the others being 0; and work is zero.
    Done {
        used: usize,
        subs: &'static [f32],
        last_code: u8,
    },
}

// An example: what is asked and lent, the first coordinates of the rows, and the last one if there are more than four, the rest being 0,
// and the first draw.
#[derive(Clone, Copy, Debug, PartialEq)]
struct Example {
    shape: Shape,
    epochs: usize,
    n: usize,
    lent: Lent,
    rows: &'static [f32],
    last: f32,
    draw: f64,
    expected: Expected,
}

// What an example lends, but for what it says otherwise.
const USUAL_LENT: Lent = Lent {
    rows: 1,
    draws: 0,
    subs: 1,
    codes: 1,
    work: 1_025,
};

// An example, but for what it says otherwise: one row of one coordinate, 0, which is its own centre.
const USUAL: Example = Example {
    shape: Shape {
        d: 1,
        nsub: 1,
        bits: 0,
    },
    epochs: 1,
    n: 1,
    lent: USUAL_LENT,
    rows: &[],
    last: 0.0,
    draw: 0.0,
    expected: Expected::Done {
        used: 0,
        subs: &[],
        last_code: 0,
    },
};

// The examples, numbered from 0.
static EXAMPLES: [Example; 34] = [
    // 100,001 rows pass test 3, 100,002 do not; row 100,000 alone has the second centre
    Example {
        shape: Shape {
            d: 1,
            nsub: 1,
            bits: 1,
        },
        n: 100_001,
        lent: Lent {
            rows: 100_001,
            subs: 2,
            codes: 100_001,
            work: 101_025,
            ..USUAL_LENT
        },
        last: 2.0,
        expected: Expected::Done {
            used: 0,
            subs: &[0.0, 2.0],
            last_code: 1,
        },
        ..USUAL
    },
    Example {
        shape: Shape {
            d: 1,
            nsub: 1,
            bits: 1,
        },
        n: 100_002,
        lent: Lent {
            rows: 100_002,
            subs: 2,
            codes: 100_002,
            work: 101_026,
            ..USUAL_LENT
        },
        expected: Expected::Refused { number: 3 },
        ..USUAL
    },
    // D 256 and 257, and 0
    Example {
        shape: Shape {
            d: 256,
            nsub: 1,
            bits: 0,
        },
        lent: Lent {
            rows: 256,
            subs: 256,
            ..USUAL_LENT
        },
        rows: &[1.0, 2.0, 3.0, 4.0],
        expected: Expected::Done {
            used: 0,
            subs: &[1.0, 2.0, 3.0, 4.0],
            last_code: 0,
        },
        ..USUAL
    },
    Example {
        shape: Shape {
            d: 257,
            nsub: 1,
            bits: 0,
        },
        lent: Lent {
            rows: 257,
            subs: 257,
            ..USUAL_LENT
        },
        expected: Expected::Refused { number: 1 },
        ..USUAL
    },
    Example {
        shape: Shape {
            d: 0,
            nsub: 1,
            bits: 0,
        },
        lent: Lent {
            rows: 0,
            subs: 0,
            ..USUAL_LENT
        },
        expected: Expected::Refused { number: 1 },
        ..USUAL
    },
    // n_sub 64 and 65, and above D
    Example {
        shape: Shape {
            d: 64,
            nsub: 64,
            bits: 0,
        },
        lent: Lent {
            rows: 64,
            subs: 64,
            codes: 64,
            ..USUAL_LENT
        },
        rows: &[1.0, 2.0, 3.0, 4.0],
        expected: Expected::Done {
            used: 0,
            subs: &[1.0, 2.0, 3.0, 4.0],
            last_code: 0,
        },
        ..USUAL
    },
    Example {
        shape: Shape {
            d: 65,
            nsub: 65,
            bits: 0,
        },
        lent: Lent {
            rows: 65,
            subs: 65,
            codes: 65,
            ..USUAL_LENT
        },
        expected: Expected::Refused { number: 1 },
        ..USUAL
    },
    Example {
        shape: Shape {
            d: 1,
            nsub: 2,
            bits: 0,
        },
        lent: Lent {
            codes: 2,
            ..USUAL_LENT
        },
        expected: Expected::Refused { number: 1 },
        ..USUAL
    },
    // sub_bits 8 and 9; an empty centre becomes all zero
    Example {
        shape: Shape {
            d: 1,
            nsub: 1,
            bits: 8,
        },
        lent: Lent {
            subs: 256,
            ..USUAL_LENT
        },
        rows: &[5.0],
        expected: Expected::Done {
            used: 0,
            subs: &[5.0],
            last_code: 0,
        },
        ..USUAL
    },
    Example {
        shape: Shape {
            d: 1,
            nsub: 1,
            bits: 9,
        },
        lent: Lent {
            subs: 512,
            ..USUAL_LENT
        },
        expected: Expected::Refused { number: 1 },
        ..USUAL
    },
    // epochs 1,000 and 1,001, and 0: mean - 1 and mean + 1
    Example {
        epochs: 1_000,
        rows: &[5.0],
        expected: Expected::Done {
            used: 0,
            subs: &[5.0],
            last_code: 0,
        },
        ..USUAL
    },
    Example {
        epochs: 1_001,
        expected: Expected::Refused { number: 1 },
        ..USUAL
    },
    Example {
        shape: Shape {
            d: 1,
            nsub: 1,
            bits: 1,
        },
        epochs: 0,
        lent: Lent {
            subs: 2,
            ..USUAL_LENT
        },
        rows: &[5.0],
        expected: Expected::Done {
            used: 0,
            subs: &[4.0, 6.0],
            last_code: 0,
        },
        ..USUAL
    },
    // n 0, and test 1 before test 2
    Example {
        n: 0,
        lent: Lent {
            rows: 0,
            codes: 0,
            work: 1_024,
            ..USUAL_LENT
        },
        expected: Expected::Refused { number: 2 },
        ..USUAL
    },
    Example {
        shape: Shape {
            d: 0,
            nsub: 1,
            bits: 0,
        },
        n: 0,
        lent: Lent {
            rows: 0,
            subs: 0,
            codes: 0,
            work: 1_024,
            ..USUAL_LENT
        },
        expected: Expected::Refused { number: 1 },
        ..USUAL
    },
    // a buffer not of its length: rows, sub-centres, codes, work
    Example {
        n: 2,
        lent: Lent {
            codes: 2,
            work: 1_026,
            ..USUAL_LENT
        },
        expected: Expected::Refused { number: 4 },
        ..USUAL
    },
    Example {
        n: 2,
        lent: Lent {
            rows: 2,
            subs: 2,
            codes: 2,
            work: 1_026,
            ..USUAL_LENT
        },
        expected: Expected::Refused { number: 4 },
        ..USUAL
    },
    Example {
        n: 2,
        lent: Lent {
            rows: 2,
            work: 1_026,
            ..USUAL_LENT
        },
        expected: Expected::Refused { number: 4 },
        ..USUAL
    },
    Example {
        n: 2,
        lent: Lent {
            rows: 2,
            codes: 2,
            ..USUAL_LENT
        },
        expected: Expected::Refused { number: 4 },
        ..USUAL
    },
    // a row that is no number, or infinite; the largest number; -0.0
    Example {
        n: 2,
        lent: Lent {
            rows: 2,
            codes: 2,
            work: 1_026,
            ..USUAL_LENT
        },
        rows: &[1.0, f32::NAN],
        expected: Expected::Refused { number: 6 },
        ..USUAL
    },
    Example {
        n: 2,
        lent: Lent {
            rows: 2,
            codes: 2,
            work: 1_026,
            ..USUAL_LENT
        },
        rows: &[1.0, f32::INFINITY],
        expected: Expected::Refused { number: 6 },
        ..USUAL
    },
    Example {
        rows: &[f32::MAX],
        expected: Expected::Done {
            used: 0,
            subs: &[f32::MAX],
            last_code: 0,
        },
        ..USUAL
    },
    Example {
        rows: &[-0.0],
        ..USUAL
    },
    // a draw of 1.0, below 0, or no number; one just below 1, and -0.0; test 6 before test 7
    Example {
        lent: Lent {
            draws: 1,
            ..USUAL_LENT
        },
        draw: 1.0,
        expected: Expected::Refused { number: 7 },
        ..USUAL
    },
    Example {
        lent: Lent {
            draws: 1,
            ..USUAL_LENT
        },
        draw: -0.25,
        expected: Expected::Refused { number: 7 },
        ..USUAL
    },
    Example {
        lent: Lent {
            draws: 1,
            ..USUAL_LENT
        },
        draw: f64::NAN,
        expected: Expected::Refused { number: 7 },
        ..USUAL
    },
    Example {
        lent: Lent {
            draws: 1,
            ..USUAL_LENT
        },
        rows: &[5.0],
        draw: 0.9999999999999999,
        expected: Expected::Done {
            used: 0,
            subs: &[5.0],
            last_code: 0,
        },
        ..USUAL
    },
    Example {
        lent: Lent {
            draws: 1,
            ..USUAL_LENT
        },
        rows: &[5.0],
        draw: -0.0,
        expected: Expected::Done {
            used: 0,
            subs: &[5.0],
            last_code: 0,
        },
        ..USUAL
    },
    Example {
        n: 2,
        lent: Lent {
            rows: 2,
            draws: 1,
            codes: 2,
            work: 1_026,
            ..USUAL_LENT
        },
        rows: &[1.0, f32::NAN],
        draw: 1.0,
        expected: Expected::Refused { number: 6 },
        ..USUAL
    },
    // the split of rows (1,2), (3,4) in the first of two epochs, with four draws and with three; and with seven in the second of
    // two sub-spaces
    Example {
        shape: Shape {
            d: 2,
            nsub: 1,
            bits: 2,
        },
        epochs: 2,
        n: 2,
        lent: Lent {
            rows: 4,
            draws: 4,
            subs: 8,
            codes: 2,
            work: 1_026,
        },
        rows: &[1.0, 2.0, 3.0, 4.0],
        expected: Expected::Done {
            used: 4,
            subs: &[1.0, 2.0, 3.0, 4.0],
            last_code: 1,
        },
        ..USUAL
    },
    Example {
        shape: Shape {
            d: 2,
            nsub: 1,
            bits: 2,
        },
        epochs: 2,
        n: 2,
        lent: Lent {
            rows: 4,
            draws: 3,
            subs: 8,
            codes: 2,
            work: 1_026,
        },
        rows: &[1.0, 2.0, 3.0, 4.0],
        expected: Expected::Stopped {
            number: 8,
            place: Place {
                stage: 1,
                cell: 0,
                sub: 0,
                step: SPLITTING,
                epoch: 1,
                center: 3,
            },
        },
        ..USUAL
    },
    Example {
        shape: Shape {
            d: 2,
            nsub: 2,
            bits: 2,
        },
        epochs: 2,
        n: 2,
        lent: Lent {
            rows: 4,
            draws: 7,
            subs: 8,
            codes: 4,
            work: 1_026,
        },
        rows: &[1.0, 2.0, 3.0, 4.0],
        expected: Expected::Stopped {
            number: 8,
            place: Place {
                stage: 1,
                cell: 0,
                sub: 1,
                step: SPLITTING,
                epoch: 1,
                center: 3,
            },
        },
        ..USUAL
    },
    // a mean that is not finite, and a donor that is not finite after the split
    Example {
        n: 2,
        lent: Lent {
            rows: 2,
            codes: 2,
            work: 1_026,
            ..USUAL_LENT
        },
        rows: &[f32::MAX, f32::MAX],
        expected: Expected::Stopped {
            number: 9,
            place: Place {
                stage: 1,
                cell: 0,
                sub: 0,
                step: START,
                epoch: 0,
                center: 0,
            },
        },
        ..USUAL
    },
    Example {
        shape: Shape {
            d: 1,
            nsub: 1,
            bits: 1,
        },
        epochs: 2,
        lent: Lent {
            draws: 1,
            subs: 2,
            ..USUAL_LENT
        },
        rows: &[f32::MAX],
        expected: Expected::Stopped {
            number: 9,
            place: Place {
                stage: 1,
                cell: 0,
                sub: 0,
                step: SPLITTING,
                epoch: 1,
                center: 1,
            },
        },
        ..USUAL
    },
];

// Whether sub-centres, codes and work are as they were.
fn is_untouched(subs: &[f32], codes: &[u8], work: &[u32]) -> bool {
    are(subs, DIRTY_FLOAT) && are(codes, DIRTY_BYTE) && are(work, DIRTY_NUMBER)
}

// Whether all codes are 0 but the last one, which is the one expected.
fn are_codes(last: u8, codes: &[u8]) -> bool {
    match codes {
        [others @ .., code] => are(others, 0) && *code == last,
        [] => true,
    }
}

// Whether sub-centres are those of a list and 0 after it, all codes are 0 but the last one, and work is zero.
fn is_written(list: &[f32], last_code: u8, subs: &[f32], codes: &[u8], work: &[u32]) -> bool {
    same(subs, list, 0.0) && are_codes(last_code, codes) && are(work, 0)
}

// An answer of these values.
fn answer_of(number: u32, place: Place, used: usize) -> TrainAnswer {
    TrainAnswer {
        number,
        place,
        used,
    }
}

// Whether an answer, and what sub-centres, codes and work hold, are those expected.
fn is_expected(x: &Expected, a: TrainAnswer, subs: &[f32], codes: &[u8], work: &[u32]) -> bool {
    match *x {
        Expected::Refused { number } => {
            a == answer_of(number, NO_PLACE, 0) && is_untouched(subs, codes, work)
        }
        Expected::Stopped { number, place } => {
            a == answer_of(number, place, 0) && is_written(&[], 0, subs, codes, work)
        }
        Expected::Done {
            used,
            subs: list,
            last_code,
        } => a == answer_of(0, NO_PLACE, used) && is_written(list, last_code, subs, codes, work),
    }
}

// Whether an example comes out as document 01 says, in the first elements of larger buffers that nobody wrote. Document 01's draws of the
// split follow the first one, twice.
fn agrees(e: &Example) -> bool {
    let mut rows = [0.0f32; ROWS];
    given::write_ends(e.rows, e.last, e.lent.rows, 0.0, &mut rows);
    let draws = [e.draw, 0.25, 0.5, 0.4, 0.0, 0.25, 0.5, 0.4];
    let mut subs = [DIRTY_FLOAT; ROWS];
    let mut codes = [DIRTY_BYTE; ROWS];
    let mut work = [DIRTY_NUMBER; WORK];
    let s = held(&subs, e.lent.subs);
    let c = held(&codes, e.lent.codes);
    let w = held(&work, e.lent.work);
    let subs = &mut subs[..s];
    let codes = &mut codes[..c];
    let work = &mut work[..w];
    let t = plain_train::train(
        e.shape,
        e.epochs,
        e.n,
        first(&rows, e.lent.rows),
        first(&draws, e.lent.draws),
        subs,
        codes,
        work,
    );
    is_expected(&e.expected, answers::train_answer(t), subs, codes, work)
}

// Counts the examples, and those that come out as document 01 says. Of each table its own: the examples are of another type.
pub(crate) fn agreeing(before: Tally) -> Tally {
    let mut t = before;
    for e in &EXAMPLES {
        t = counted(t, agrees(e));
    }
    t
}
