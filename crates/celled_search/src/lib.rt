// IVFPQIndex's search: refusals first, then document 01's five steps. Damage and a distance that is not finite leave the results blank,
// and the table is zero at every end but that of tests 1 to 6.
// The entry point's parameters stay flat, as C lends them.
#![tactic(auto)]

ghost use Rattle.std.specs.Prelude.{◌≡◌, length};
ghost use Rattle.pq_params.specs.Lengths.{table_long};
ghost use Rattle.cell_walk.specs.Results.{search_out, lent};
ghost use Rattle.probed_cells.specs.Search.{asking_in};
ghost use Rattle.probed_cells.specs.ProbedInner.{Ready, Cleared};
ghost use Rattle.celled_search.specs.Outcome.{search_in, search_refusal, search_worked, search_outcome};
ghost use Rattle.celled_search.specs.SearchInner.{Stepping};

use answers::{Found, Refusal};
use celled_lists::CelledIndex;
use pq_params::CelledShape;
use probed_cells::Asking;

// Steps 2 to 5, with places for the cells to probe. What is lent is clear, and a refusal leaves it so. The probe's refusal is handed on
// by its name, so that an edit can name another one.
fn search_nearest(
    a: Asking<'_>,
    probed: &mut [u32],
    rows: &mut [u32],
    sums: &mut [f32],
    table: &mut [f32],
) -> Result<Found, Refusal>
    requires stepping { Stepping (asking_in a) probed.old table.old }
    requires cleared { Cleared (lent rows.old sums.old table.old) }
    ensures { search_out result rows.new sums.new table.new ≡
        search_worked (asking_in a.entry) (lent rows.old sums.old table.old) }
{
    let s = a.index.shape;
    if let Err(why) = celled_probe::probe(s.plain.d, s.cells, a.query, a.index.coarse, probed) {
        return Err(why);
    }
    if !probed_cells::probed_sound(a, probed) {
        return Err(Refusal::Damaged);
    }
    probed_cells::search_probed(a, probed, rows, sums, table)
}

// The work of a search that tests 1 to 6 let pass: results blank and table zero, then the five steps.
fn search_ready(
    a: Asking<'_>,
    rows: &mut [u32],
    sums: &mut [f32],
    table: &mut [f32],
) -> Result<Found, Refusal>
    requires ready { Ready (asking_in a) }
    requires sums_len { (length sums.old ≡ length rows.old) × (length table.old ≡ table_long a.index.shape.plain) }
    ensures { search_out result rows.new sums.new table.new ≡
        search_worked (asking_in a.entry) (lent rows.old sums.old table.old) }
{
    cell_walk::blank(rows, sums);
    lists::fill(table, 0.0);
    let s = a.index.shape;
    if !celled_lists::starts_sound(a.index.starts, s.cells, a.index.n) {
        return Err(Refusal::Damaged);
    }
    let mut probed: [u32; 1024] = [0; 1024];
    search_nearest(a, &mut probed[..s.probes], rows, sums, table)
}

// Tests 1, 3, 4, 5, 6 in that order: the first that refuses.
fn search_refusal(a: Asking<'_>, rows: &[u32], sums: &[f32], table: &[f32]) -> Result<(), Refusal>
    ensures { result ≡ search_refusal (record { asked = asking_in a.entry; lent = lent rows.now sums.now table.now }) }
{
    let x = a.index;
    let l = pq_params::celled_lengths(x.shape, x.n);
    // Not by `bad_index_lengths`, which would work out all lengths once more.
    let wrong = (x.coarse.len() != l.coarse)
        | (x.starts.len() != l.starts)
        | (x.members.len() != l.members)
        | (x.subs.len() != l.subs)
        | (x.codes.len() != l.codes)
        | (a.query.len() != x.shape.plain.d)
        | (a.mask.len() != x.n)
        | (sums.len() != rows.len())
        | (table.len() != l.table);
    let bad = pq_params::bad_celled(x.shape);
    pq_params::search_refusal(bad, x.n, wrong, rows.len(), a.query)
}

// Celled search: the first k candidates in order, k being the results' length; how many were found, and how many rows were scored.
pub fn search(
    s: CelledShape,
    n: usize,
    query: &[f32],
    mask: &[u8],
    coarse: &[f32],
    starts: &[u32],
    members: &[u32],
    subs: &[f32],
    codes: &[u8],
    rows: &mut [u32],
    sums: &mut [f32],
    table: &mut [f32],
) -> Result<Found, Refusal>
    ensures { search_out result rows.new sums.new table.new ≡
        search_outcome (search_in s n query.now mask.now coarse.now starts.now
        members.now subs.now codes.now
        (lent rows.old sums.old table.old)) }
{
    let index = CelledIndex {
        shape: s,
        n,
        coarse,
        starts,
        members,
        subs,
        codes,
    };
    let a = Asking { index, query, mask };
    search_refusal(a, rows, sums, table)?;
    search_ready(a, rows, sums, table)
}
