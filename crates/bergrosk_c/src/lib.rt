// What C calls: each function of the crate bergrosk once more, exported under its name, with the same promise. include/bergrosk.h
// declares them. A slice arrives as a pointer and a length. No function asks anything of what it is lent.
#![tactic(auto)]

ghost use Rattle.std.specs.Prelude.{◌≡◌};
ghost use Rattle.pq_params.specs.Defaults.{plain_default, celled_default};
ghost use Rattle.pq_params.specs.Lengths.{plain_lengths, celled_lengths};
ghost use Rattle.plain_train.specs.Outcome.{train_in as plain_train_in};
ghost use Rattle.plain_search.specs.Outcome.{search_in as plain_search_in};
ghost use Rattle.celled_lists.specs.Index.{index_of};
ghost use Rattle.celled_train.specs.Outcome.{train_in as celled_train_in};
ghost use Rattle.celled_check.specs.Check.{check_in};
ghost use Rattle.celled_search.specs.Outcome.{search_in as celled_search_in};
ghost use Rattle.cell_walk.specs.Results.{lent};
ghost use Rattle.bergrosk.specs.Face.{shape_of, celled_shape_of, range_answer_of, plain_trained, plain_train_faced, celled_trained, celled_train_faced};
ghost use Rattle.bergrosk.specs.Face.{faced_check, check_faced, faced_search, plain_search_faced, celled_search_faced};

use answers::{SearchAnswer, TrainAnswer};
use bergrosk::RangeAnswer;
use pq_params::{CelledLengths, IVFPQParams, PQParams, PlainLengths};

// The Rust's defaults for a plain index.
#[unsafe(no_mangle)]
pub extern "C" fn bergrosk_plain_defaults() -> PQParams
    ensures { result ≡ plain_default }
{
    bergrosk::bergrosk_plain_defaults()
}

// The Rust's defaults for a celled index.
#[unsafe(no_mangle)]
pub extern "C" fn bergrosk_celled_defaults() -> IVFPQParams
    ensures { result ≡ celled_default }
{
    bergrosk::bergrosk_celled_defaults()
}

// Range i of the list of ranges: 0, 0 past the last.
#[unsafe(no_mangle)]
pub extern "C" fn bergrosk_range(d: usize, nsub: usize, i: usize) -> RangeAnswer
    ensures { result ≡ range_answer_of d nsub i }
{
    bergrosk::bergrosk_range(d, nsub, i)
}

// How long each buffer of a plain index must be.
#[unsafe(no_mangle)]
pub extern "C" fn bergrosk_plain_lengths(
    d: usize,
    nsub: usize,
    bits: usize,
    n: usize,
) -> PlainLengths
    ensures { result ≡ plain_lengths (shape_of d nsub bits) n }
{
    bergrosk::bergrosk_plain_lengths(d, nsub, bits, n)
}

// How long each buffer of a celled index must be.
#[unsafe(no_mangle)]
pub extern "C" fn bergrosk_celled_lengths(
    d: usize,
    nsub: usize,
    bits: usize,
    cells: usize,
    probes: usize,
    n: usize,
) -> CelledLengths
    ensures { result ≡ celled_lengths (celled_shape_of d nsub bits cells probes) n }
{
    bergrosk::bergrosk_celled_lengths(d, nsub, bits, cells, probes, n)
}

// Training of a plain index.
#[unsafe(no_mangle)]
pub extern "C" fn bergrosk_plain_train(
    d: usize,
    nsub: usize,
    bits: usize,
    epochs: usize,
    n: usize,
    rows: &[f32],
    draws: &[f64],
    subs: &mut [f32],
    codes: &mut [u8],
    work: &mut [u32],
) -> TrainAnswer
    ensures { plain_trained result subs.new codes.new work.new
        ≡ plain_train_faced (plain_train_in (shape_of d nsub bits) epochs n rows.now draws.now
        subs.old codes.old work.old) }
{
    bergrosk::bergrosk_plain_train(d, nsub, bits, epochs, n, rows, draws, subs, codes, work)
}

// Search of a plain index.
#[unsafe(no_mangle)]
pub extern "C" fn bergrosk_plain_search(
    d: usize,
    nsub: usize,
    bits: usize,
    n: usize,
    query: &[f32],
    mask: &[u8],
    subs: &[f32],
    codes: &[u8],
    rows: &mut [u32],
    sums: &mut [f32],
    table: &mut [f32],
) -> SearchAnswer
    ensures { faced_search result rows.new sums.new table.new
        ≡ plain_search_faced (plain_search_in (shape_of d nsub bits) n query.now mask.now subs.now
        codes.now (lent rows.old sums.old table.old)) }
{
    bergrosk::bergrosk_plain_search(
        d, nsub, bits, n, query, mask, subs, codes, rows, sums, table,
    )
}

// Training of a celled index.
#[unsafe(no_mangle)]
pub extern "C" fn bergrosk_celled_train(
    d: usize,
    nsub: usize,
    bits: usize,
    cells: usize,
    probes: usize,
    epochs: usize,
    n: usize,
    rows: &[f32],
    draws: &[f64],
    coarse: &mut [f32],
    starts: &mut [u32],
    members: &mut [u32],
    subs: &mut [f32],
    codes: &mut [u8],
    work: &mut [u32],
) -> TrainAnswer
    ensures { celled_trained result (index_of (celled_shape_of d nsub bits cells probes) n coarse.new starts.new
        members.new subs.new codes.new) work.new
        ≡ celled_train_faced (celled_train_in epochs rows.now draws.now
        (index_of (celled_shape_of d nsub bits cells probes) n coarse.old starts.old members.old
        subs.old codes.old) work.old) }
{
    bergrosk::bergrosk_celled_train(
        d, nsub, bits, cells, probes, epochs, n, rows, draws, coarse, starts, members, subs, codes,
        work,
    )
}

// The whole check of a celled index.
#[unsafe(no_mangle)]
pub extern "C" fn bergrosk_celled_check(
    d: usize,
    nsub: usize,
    bits: usize,
    cells: usize,
    probes: usize,
    n: usize,
    coarse: &[f32],
    starts: &[u32],
    members: &[u32],
    subs: &[f32],
    codes: &[u8],
    work: &mut [u32],
) -> u32
    ensures { faced_check result work.new
        ≡ check_faced (check_in (index_of (celled_shape_of d nsub bits cells probes) n coarse.now starts.now
        members.now subs.now codes.now) work.old) }
{
    bergrosk::bergrosk_celled_check(
        d, nsub, bits, cells, probes, n, coarse, starts, members, subs, codes, work,
    )
}

// Search of a celled index.
#[unsafe(no_mangle)]
pub extern "C" fn bergrosk_celled_search(
    d: usize,
    nsub: usize,
    bits: usize,
    cells: usize,
    probes: usize,
    n: usize,
    query: &[f32],
    mask: &[u8],
    coarse: &[f32],
    starts: &[u32],
    members: &[u32],
    subs: &[f32],
    codes: &[u8],
    rows: &mut [u32],
    sums: &mut [f32],
    table: &mut [f32],
) -> SearchAnswer
    ensures { faced_search result rows.new sums.new table.new
        ≡ celled_search_faced (celled_search_in (celled_shape_of d nsub bits cells probes) n query.now mask.now
        coarse.now starts.now members.now subs.now codes.now
        (lent rows.old sums.old table.old)) }
{
    bergrosk::bergrosk_celled_search(
        d, nsub, bits, cells, probes, n, query, mask, coarse, starts, members, subs, codes, rows,
        sums, table,
    )
}
