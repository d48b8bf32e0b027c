// Examples of the plain search, in a table: what document 01 says of each, beside its neighbour.
use crate::given;
use answers::SearchAnswer;
use lending::buffers::{DIRTY_FLOAT, DIRTY_NUMBER, ROWS, WORK};
use lending::held::held;
use lending::listed::{are, same, write};
use lending::parts::first;
use lending::tally::{Tally, counted};
use pq_params::Shape;

// The row number of a blank place.
const BLANK: u32 = 4_294_967_295;

// Powers of 2, of which 2^64 has no finite square, and 2^127 + 2^126.
const TO_63: f32 = 9223372036854775808.0;

const TO_64: f32 = 18446744073709551616.0;

const TO_126: f32 = 85070591730234615865843651857942052864.0;

const SUM: f32 = 255211775190703847597530955573826158592.0;

// What is lent: so many coordinates of the query, bytes of the mask, sub-centres, codes, row numbers, sums and entries of the table.
#[derive(Clone, Copy, Debug, PartialEq, Eq)]
struct Lent {
    query: usize,
    mask: usize,
    subs: usize,
    codes: usize,
    rows: usize,
    sums: usize,
    table: usize,
}

// What comes out, in document 01's numbers.
#[derive(Clone, Copy, Debug, PartialEq)]
enum Expected {
    // Refused by test 1 to 6: results and table are as they were.
    Refused {
        number: u32,
    },
    // 10 or 11: the results are blank, and the table is zero.
    Blank {
        number: u32,
    },
    // The row numbers, which blanks follow, and the sums, the rest being 0; and the table is zero.
    Found {
        found: usize,
        scored: usize,
        rows: &'static [u32],
        sums: &'static [f32],
    },
}

// An example: what is asked and lent, the row that is hidden, the first codes, and the last one if there are more than four, and the first
// coordinates of the query and of the sub-centres, the rest being 0.
#[derive(Clone, Copy, Debug, PartialEq)]
struct Example {
    shape: Shape,
    n: usize,
    lent: Lent,
    hidden: Option<usize>,
    codes: &'static [u8],
    last_code: u8,
    query: &'static [f32],
    subs: &'static [f32],
    expected: Expected,
}

// What an example lends, but for what it says otherwise.
const USUAL_LENT: Lent = Lent {
    query: 2,
    mask: 4,
    subs: 8,
    codes: 4,
    rows: 3,
    sums: 3,
    table: 4,
};

// An example, but for what it says otherwise: four rows, and four sub-centres whose squared distances from (0,0) are 4, 1, 4, 0.5.
const USUAL: Example = Example {
    shape: Shape {
        d: 2,
        nsub: 1,
        bits: 2,
    },
    n: 4,
    lent: USUAL_LENT,
    hidden: None,
    codes: &[0, 1, 2, 3],
    last_code: 0,
    query: &[0.0, 0.0],
    subs: &[2.0, 0.0, 1.0, 0.0, 0.0, 2.0, 0.5, 0.5],
    expected: Expected::Found {
        found: 3,
        scored: 4,
        rows: &[3, 1, 0],
        sums: &[0.5, 1.0, 4.0],
    },
};

// The examples, numbered from 0.
static EXAMPLES: [Example; 35] = [
    // sums 4, 1, 4, 0.5 for rows 0..3: k 3; row 3 hidden; k 5; k 0
    USUAL,
    Example {
        hidden: Some(3),
        expected: Expected::Found {
            found: 3,
            scored: 3,
            rows: &[1, 0, 2],
            sums: &[1.0, 4.0, 4.0],
        },
        ..USUAL
    },
    Example {
        lent: Lent {
            rows: 5,
            sums: 5,
            ..USUAL_LENT
        },
        expected: Expected::Found {
            found: 4,
            scored: 4,
            rows: &[3, 1, 0, 2],
            sums: &[0.5, 1.0, 4.0, 4.0],
        },
        ..USUAL
    },
    Example {
        lent: Lent {
            rows: 0,
            sums: 0,
            ..USUAL_LENT
        },
        expected: Expected::Found {
            found: 0,
            scored: 4,
            rows: &[],
            sums: &[],
        },
        ..USUAL
    },
    // k 4,096 and 4,097
    Example {
        lent: Lent {
            rows: 4_096,
            sums: 4_096,
            ..USUAL_LENT
        },
        expected: Expected::Found {
            found: 4,
            scored: 4,
            rows: &[3, 1, 0, 2],
            sums: &[0.5, 1.0, 4.0, 4.0],
        },
        ..USUAL
    },
    Example {
        lent: Lent {
            rows: 4_097,
            sums: 4_097,
            ..USUAL_LENT
        },
        expected: Expected::Refused { number: 5 },
        ..USUAL
    },
    // 100,001 rows pass test 3, 100,002 do not; row 100,000 alone has the second centre
    Example {
        shape: Shape {
            d: 1,
            nsub: 1,
            bits: 1,
        },
        n: 100_001,
        lent: Lent {
            query: 1,
            mask: 100_001,
            subs: 2,
            codes: 100_001,
            rows: 2,
            sums: 2,
            table: 2,
        },
        codes: &[],
        last_code: 1,
        query: &[2.0, 0.0],
        subs: &[0.0, 2.0],
        expected: Expected::Found {
            found: 2,
            scored: 100_001,
            rows: &[100_000, 0],
            sums: &[0.0, 4.0],
        },
        ..USUAL
    },
    Example {
        shape: Shape {
            d: 1,
            nsub: 1,
            bits: 1,
        },
        n: 100_002,
        lent: Lent {
            query: 1,
            mask: 100_002,
            subs: 2,
            codes: 100_002,
            rows: 2,
            sums: 2,
            table: 2,
        },
        codes: &[],
        last_code: 1,
        subs: &[],
        expected: Expected::Refused { number: 3 },
        ..USUAL
    },
    // n 0 is legal
    Example {
        shape: Shape {
            d: 1,
            nsub: 1,
            bits: 0,
        },
        n: 0,
        lent: Lent {
            query: 1,
            mask: 0,
            subs: 1,
            codes: 0,
            table: 1,
            ..USUAL_LENT
        },
        codes: &[],
        subs: &[],
        expected: Expected::Found {
            found: 0,
            scored: 0,
            rows: &[],
            sums: &[],
        },
        ..USUAL
    },
    // D 256 and 257, and 0
    Example {
        shape: Shape {
            d: 256,
            nsub: 1,
            bits: 0,
        },
        n: 1,
        lent: Lent {
            query: 256,
            mask: 1,
            subs: 256,
            codes: 1,
            rows: 1,
            sums: 1,
            table: 1,
        },
        codes: &[],
        subs: &[3.0, 4.0],
        expected: Expected::Found {
            found: 1,
            scored: 1,
            rows: &[0],
            sums: &[25.0],
        },
        ..USUAL
    },
    Example {
        shape: Shape {
            d: 257,
            nsub: 1,
            bits: 0,
        },
        n: 1,
        lent: Lent {
            query: 257,
            mask: 1,
            subs: 257,
            codes: 1,
            rows: 1,
            sums: 1,
            table: 1,
        },
        codes: &[],
        subs: &[],
        expected: Expected::Refused { number: 1 },
        ..USUAL
    },
    Example {
        shape: Shape {
            d: 0,
            nsub: 1,
            bits: 0,
        },
        n: 1,
        lent: Lent {
            query: 0,
            mask: 1,
            subs: 0,
            codes: 1,
            rows: 1,
            sums: 1,
            table: 1,
        },
        codes: &[],
        subs: &[],
        expected: Expected::Refused { number: 1 },
        ..USUAL
    },
    // n_sub 64 and 65, and above D
    Example {
        shape: Shape {
            d: 64,
            nsub: 64,
            bits: 0,
        },
        n: 1,
        lent: Lent {
            query: 64,
            mask: 1,
            subs: 64,
            codes: 64,
            rows: 1,
            sums: 1,
            table: 64,
        },
        codes: &[],
        subs: &[3.0, 4.0],
        expected: Expected::Found {
            found: 1,
            scored: 1,
            rows: &[0],
            sums: &[25.0],
        },
        ..USUAL
    },
    Example {
        shape: Shape {
            d: 65,
            nsub: 65,
            bits: 0,
        },
        n: 1,
        lent: Lent {
            query: 65,
            mask: 1,
            subs: 65,
            codes: 65,
            rows: 1,
            sums: 1,
            table: 65,
        },
        codes: &[],
        subs: &[],
        expected: Expected::Refused { number: 1 },
        ..USUAL
    },
    Example {
        shape: Shape {
            d: 1,
            nsub: 2,
            bits: 0,
        },
        n: 1,
        lent: Lent {
            query: 1,
            mask: 1,
            subs: 1,
            codes: 2,
            rows: 1,
            sums: 1,
            table: 2,
        },
        codes: &[],
        subs: &[],
        expected: Expected::Refused { number: 1 },
        ..USUAL
    },
    // sub_bits 8, whose last code is 255, and 9
    Example {
        shape: Shape {
            d: 1,
            nsub: 1,
            bits: 8,
        },
        n: 1,
        lent: Lent {
            query: 1,
            mask: 1,
            subs: 256,
            codes: 1,
            rows: 1,
            sums: 1,
            table: 256,
        },
        codes: &[255],
        subs: &[3.0, 4.0],
        expected: Expected::Found {
            found: 1,
            scored: 1,
            rows: &[0],
            sums: &[0.0],
        },
        ..USUAL
    },
    Example {
        shape: Shape {
            d: 1,
            nsub: 1,
            bits: 9,
        },
        n: 1,
        lent: Lent {
            query: 1,
            mask: 1,
            subs: 512,
            codes: 1,
            rows: 1,
            sums: 1,
            table: 512,
        },
        codes: &[255],
        subs: &[],
        expected: Expected::Refused { number: 1 },
        ..USUAL
    },
    // a buffer not of its length: query, mask, sub-centres, codes, row numbers, sums, table
    Example {
        lent: Lent {
            query: 1,
            ..USUAL_LENT
        },
        expected: Expected::Refused { number: 4 },
        ..USUAL
    },
    Example {
        lent: Lent {
            mask: 3,
            ..USUAL_LENT
        },
        expected: Expected::Refused { number: 4 },
        ..USUAL
    },
    Example {
        lent: Lent {
            subs: 7,
            ..USUAL_LENT
        },
        expected: Expected::Refused { number: 4 },
        ..USUAL
    },
    Example {
        lent: Lent {
            codes: 5,
            ..USUAL_LENT
        },
        expected: Expected::Refused { number: 4 },
        ..USUAL
    },
    Example {
        lent: Lent {
            rows: 2,
            ..USUAL_LENT
        },
        expected: Expected::Refused { number: 4 },
        ..USUAL
    },
    Example {
        lent: Lent {
            sums: 2,
            ..USUAL_LENT
        },
        expected: Expected::Refused { number: 4 },
        ..USUAL
    },
    Example {
        lent: Lent {
            table: 5,
            ..USUAL_LENT
        },
        expected: Expected::Refused { number: 4 },
        ..USUAL
    },
    // a query that is no number, or infinite; -0.0; test 5 before test 6
    Example {
        query: &[0.0, f32::NAN],
        expected: Expected::Refused { number: 6 },
        ..USUAL
    },
    Example {
        query: &[f32::INFINITY, 0.0],
        expected: Expected::Refused { number: 6 },
        ..USUAL
    },
    Example {
        query: &[-0.0, -0.0],
        ..USUAL
    },
    Example {
        lent: Lent {
            rows: 4_097,
            sums: 4_097,
            ..USUAL_LENT
        },
        query: &[0.0, f32::NAN],
        expected: Expected::Refused { number: 5 },
        ..USUAL
    },
    // a damaged code of a visible row, and of a hidden one
    Example {
        codes: &[0, 1, 2, 4],
        expected: Expected::Blank { number: 10 },
        ..USUAL
    },
    Example {
        hidden: Some(3),
        codes: &[0, 1, 2, 4],
        expected: Expected::Found {
            found: 3,
            scored: 3,
            rows: &[1, 0, 2],
            sums: &[1.0, 4.0, 4.0],
        },
        ..USUAL
    },
    // a table entry that overflows, though no row has it; the same without a visible row; the square of 2^63
    Example {
        shape: Shape {
            d: 1,
            nsub: 1,
            bits: 1,
        },
        n: 1,
        lent: Lent {
            query: 1,
            mask: 1,
            subs: 2,
            codes: 1,
            rows: 1,
            sums: 1,
            table: 2,
        },
        codes: &[],
        subs: &[0.0, TO_64],
        expected: Expected::Blank { number: 11 },
        ..USUAL
    },
    Example {
        shape: Shape {
            d: 1,
            nsub: 1,
            bits: 1,
        },
        n: 1,
        lent: Lent {
            query: 1,
            mask: 1,
            subs: 2,
            codes: 1,
            rows: 1,
            sums: 1,
            table: 2,
        },
        hidden: Some(0),
        codes: &[],
        subs: &[0.0, TO_64],
        expected: Expected::Found {
            found: 0,
            scored: 0,
            rows: &[],
            sums: &[],
        },
        ..USUAL
    },
    Example {
        shape: Shape {
            d: 1,
            nsub: 1,
            bits: 1,
        },
        n: 1,
        lent: Lent {
            query: 1,
            mask: 1,
            subs: 2,
            codes: 1,
            rows: 1,
            sums: 1,
            table: 2,
        },
        codes: &[1],
        subs: &[0.0, TO_63],
        expected: Expected::Found {
            found: 1,
            scored: 1,
            rows: &[0],
            sums: &[TO_126],
        },
        ..USUAL
    },
    // a sum of finite entries that overflows, and one that does not
    Example {
        shape: Shape {
            d: 4,
            nsub: 2,
            bits: 0,
        },
        n: 1,
        lent: Lent {
            query: 4,
            mask: 1,
            subs: 4,
            codes: 2,
            rows: 1,
            sums: 1,
            table: 2,
        },
        codes: &[],
        subs: &[TO_63, TO_63, TO_63, TO_63],
        expected: Expected::Blank { number: 11 },
        ..USUAL
    },
    Example {
        shape: Shape {
            d: 4,
            nsub: 2,
            bits: 0,
        },
        n: 1,
        lent: Lent {
            query: 4,
            mask: 1,
            subs: 4,
            codes: 2,
            rows: 1,
            sums: 1,
            table: 2,
        },
        codes: &[],
        subs: &[TO_63, TO_63, TO_63],
        expected: Expected::Found {
            found: 1,
            scored: 1,
            rows: &[0],
            sums: &[SUM],
        },
        ..USUAL
    },
];

// Whether results and table are as they were.
fn is_untouched(rows: &[u32], sums: &[f32], table: &[f32]) -> bool {
    are(rows, DIRTY_NUMBER) && are(sums, DIRTY_FLOAT) && are(table, DIRTY_FLOAT)
}

// Whether results are those of two lists, blank and 0 after them, and the table is zero.
fn is_written(named: &[u32], summed: &[f32], rows: &[u32], sums: &[f32], table: &[f32]) -> bool {
    same(rows, named, BLANK) && same(sums, summed, 0.0) && are(table, 0.0)
}

// An answer of these values.
fn answer_of(number: u32, found: usize, scored: usize) -> SearchAnswer {
    SearchAnswer {
        number,
        found,
        scored,
    }
}

// Whether an answer, and what results and table hold, are those expected.
fn is_expected(x: &Expected, a: SearchAnswer, rows: &[u32], sums: &[f32], table: &[f32]) -> bool {
    match *x {
        Expected::Refused { number } => {
            a == answer_of(number, 0, 0) && is_untouched(rows, sums, table)
        }
        Expected::Blank { number } => {
            a == answer_of(number, 0, 0) && is_written(&[], &[], rows, sums, table)
        }
        Expected::Found {
            found,
            scored,
            rows: named,
            sums: summed,
        } => a == answer_of(0, found, scored) && is_written(named, summed, rows, sums, table),
    }
}

// The mask of an example: all rows but the hidden one.
fn write_mask(e: &Example, mask: &mut [u8]) {
    let Some(row) = e.hidden else {
        return;
    };
    if row < mask.len() {
        mask[row] = 0;
    }
}

// Whether an example comes out as document 01 says, in the first elements of larger buffers that nobody wrote.
fn agrees(e: &Example) -> bool {
    let mut query = [0.0f32; 512];
    let mut subs = [0.0f32; 1_024];
    let mut mask = [128u8; ROWS];
    let mut codes = [0u8; ROWS];
    write(e.query, 0.0, &mut query);
    write(e.subs, 0.0, &mut subs);
    write_mask(e, &mut mask);
    given::write_ends(e.codes, e.last_code, e.lent.codes, 0, &mut codes);
    let mut rows = [DIRTY_NUMBER; WORK];
    let mut sums = [DIRTY_FLOAT; ROWS];
    let mut table = [DIRTY_FLOAT; ROWS];
    let r = held(&rows, e.lent.rows);
    let s = held(&sums, e.lent.sums);
    let t = held(&table, e.lent.table);
    let rows = &mut rows[..r];
    let sums = &mut sums[..s];
    let table = &mut table[..t];
    let a = plain_search::search(
        e.shape,
        e.n,
        first(&query, e.lent.query),
        first(&mask, e.lent.mask),
        first(&subs, e.lent.subs),
        first(&codes, e.lent.codes),
        rows,
        sums,
        table,
    );
    is_expected(&e.expected, answers::search_answer(a), rows, sums, table)
}

// Counts the examples, and those that come out as document 01 says. Of each table its own: the examples are of another type.
pub(crate) fn agreeing(before: Tally) -> Tally {
    let mut t = before;
    for e in &EXAMPLES {
        t = counted(t, agrees(e));
    }
    t
}
