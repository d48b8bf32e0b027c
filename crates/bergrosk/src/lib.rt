// The face: each entry point once more, its parameters flat and its answer in numbers, as C has them. The crate bergrosk_c exports each
// of these functions to C under its own name. No function asks anything of what it is lent.
#![tactic(auto)]

ghost use Rattle.std.specs.Prelude.{◌≡◌};
ghost use Rattle.pq_params.specs.Defaults.{plain_default, celled_default};
ghost use Rattle.pq_params.specs.Lengths.{plain_lengths, celled_lengths};
ghost use Rattle.plain_train.specs.Outcome.{train_in as plain_train_in};
ghost use Rattle.plain_search.specs.Outcome.{search_in as plain_search_in};
ghost use Rattle.celled_lists.specs.Index.{index_of};
ghost use Rattle.celled_train.specs.Outcome.{train_in as celled_train_in};
ghost use Rattle.celled_check.specs.Check.{check_in};
ghost use Rattle.celled_search.specs.Outcome.{search_in as celled_search_in};
ghost use Rattle.cell_walk.specs.Results.{lent};
ghost use Rattle.bergrosk.specs.Face.{shape_of, celled_shape_of, range_answer_of, plain_trained, plain_train_faced, celled_trained, celled_train_faced};
ghost use Rattle.bergrosk.specs.Face.{faced_check, check_faced, faced_search, plain_search_faced, celled_search_faced};

use answers::{SearchAnswer, TrainAnswer};
use pq_params::{CelledLengths, CelledShape, IVFPQParams, PQParams, PlainLengths, Shape};

// One range: refusal 1 or 0, and its begin and end.
#[repr(C)]
#[derive(Clone, Copy, Debug, PartialEq, Eq)]
pub struct RangeAnswer {
    pub number: u32,
    pub begin: usize,
    pub end: usize,
}

// The numbers of a celled index.
fn celled_shape(d: usize, nsub: usize, bits: usize, cells: usize, probes: usize) -> CelledShape
    ensures { result ≡ celled_shape_of d nsub bits cells probes }
{
    CelledShape {
        plain: Shape { d, nsub, bits },
        cells,
        probes,
    }
}

// The Rust's defaults for a plain index.
pub fn bergrosk_plain_defaults() -> PQParams
    ensures { result ≡ plain_default }
{
    PQParams::default()
}

// The Rust's defaults for a celled index.
pub fn bergrosk_celled_defaults() -> IVFPQParams
    ensures { result ≡ celled_default }
{
    IVFPQParams::default()
}

// Range i of the list of ranges: 0, 0 past the last.
pub fn bergrosk_range(d: usize, nsub: usize, i: usize) -> RangeAnswer
    ensures { result ≡ range_answer_of d nsub i }
{
    let [begin, end] = pq_params::range_at(d, nsub, i);
    RangeAnswer {
        number: u32::from(pq_params::bad_range(d, nsub)),
        begin,
        end,
    }
}

// How long each buffer of a plain index must be.
pub fn bergrosk_plain_lengths(d: usize, nsub: usize, bits: usize, n: usize) -> PlainLengths
    ensures { result ≡ plain_lengths (shape_of d nsub bits) n }
{
    pq_params::plain_lengths(Shape { d, nsub, bits }, n)
}

// How long each buffer of a celled index must be.
pub fn bergrosk_celled_lengths(
    d: usize,
    nsub: usize,
    bits: usize,
    cells: usize,
    probes: usize,
    n: usize,
) -> CelledLengths
    ensures { result ≡ celled_lengths (celled_shape_of d nsub bits cells probes) n }
{
    let s = celled_shape(d, nsub, bits, cells, probes);
    pq_params::celled_lengths(s, n)
}

// Training of a plain index.
#[tactic(auto, unfolding(crate::specs::Face::plain_train_faced))]
pub fn bergrosk_plain_train(
    d: usize,
    nsub: usize,
    bits: usize,
    epochs: usize,
    n: usize,
    rows: &[f32],
    draws: &[f64],
    subs: &mut [f32],
    codes: &mut [u8],
    work: &mut [u32],
) -> TrainAnswer
    ensures { plain_trained result subs.new codes.new work.new
        ≡ plain_train_faced (plain_train_in (shape_of d nsub bits) epochs n rows.now draws.now
        subs.old codes.old work.old) }
{
    let s = Shape { d, nsub, bits };
    answers::train_answer(plain_train::train(s, epochs, n, rows, draws, subs, codes, work))
}

// Search of a plain index.
#[tactic(auto, unfolding(crate::specs::Face::plain_search_faced))]
pub fn bergrosk_plain_search(
    d: usize,
    nsub: usize,
    bits: usize,
    n: usize,
    query: &[f32],
    mask: &[u8],
    subs: &[f32],
    codes: &[u8],
    rows: &mut [u32],
    sums: &mut [f32],
    table: &mut [f32],
) -> SearchAnswer
    ensures { faced_search result rows.new sums.new table.new
        ≡ plain_search_faced (plain_search_in (shape_of d nsub bits) n query.now mask.now subs.now
        codes.now (lent rows.old sums.old table.old)) }
{
    let s = Shape { d, nsub, bits };
    answers::search_answer(plain_search::search(s, n, query, mask, subs, codes, rows, sums, table))
}

// Training of a celled index.
#[tactic(auto, unfolding(crate::specs::Face::celled_train_faced))]
pub fn bergrosk_celled_train(
    d: usize,
    nsub: usize,
    bits: usize,
    cells: usize,
    probes: usize,
    epochs: usize,
    n: usize,
    rows: &[f32],
    draws: &[f64],
    coarse: &mut [f32],
    starts: &mut [u32],
    members: &mut [u32],
    subs: &mut [f32],
    codes: &mut [u8],
    work: &mut [u32],
) -> TrainAnswer
    ensures { celled_trained result (index_of (celled_shape_of d nsub bits cells probes) n coarse.new starts.new
        members.new subs.new codes.new) work.new
        ≡ celled_train_faced (celled_train_in epochs rows.now draws.now
        (index_of (celled_shape_of d nsub bits cells probes) n coarse.old starts.old members.old
        subs.old codes.old) work.old) }
{
    let s = celled_shape(d, nsub, bits, cells, probes);
    answers::train_answer(celled_train::train(
        s, epochs, n, rows, draws, coarse, starts, members, subs, codes, work,
    ))
}

// The whole check of a celled index.
#[tactic(auto, unfolding(crate::specs::Face::check_faced))]
pub fn bergrosk_celled_check(
    d: usize,
    nsub: usize,
    bits: usize,
    cells: usize,
    probes: usize,
    n: usize,
    coarse: &[f32],
    starts: &[u32],
    members: &[u32],
    subs: &[f32],
    codes: &[u8],
    work: &mut [u32],
) -> u32
    ensures { faced_check result work.new
        ≡ check_faced (check_in (index_of (celled_shape_of d nsub bits cells probes) n coarse.now starts.now
        members.now subs.now codes.now) work.old) }
{
    let s = celled_shape(d, nsub, bits, cells, probes);
    answers::check_answer(celled_check::check(s, n, coarse, starts, members, subs, codes, work))
}

// Search of a celled index.
#[tactic(auto, unfolding(crate::specs::Face::celled_search_faced))]
pub fn bergrosk_celled_search(
    d: usize,
    nsub: usize,
    bits: usize,
    cells: usize,
    probes: usize,
    n: usize,
    query: &[f32],
    mask: &[u8],
    coarse: &[f32],
    starts: &[u32],
    members: &[u32],
    subs: &[f32],
    codes: &[u8],
    rows: &mut [u32],
    sums: &mut [f32],
    table: &mut [f32],
) -> SearchAnswer
    ensures { faced_search result rows.new sums.new table.new
        ≡ celled_search_faced (celled_search_in (celled_shape_of d nsub bits cells probes) n query.now mask.now
        coarse.now starts.now members.now subs.now codes.now
        (lent rows.old sums.old table.old)) }
{
    let s = celled_shape(d, nsub, bits, cells, probes);
    answers::search_answer(celled_search::search(
        s, n, query, mask, coarse, starts, members, subs, codes, rows, sums, table,
    ))
}
