// Search of the plain index: the tests, then the one cell of all rows.
// The entry point's parameters stay flat, as C lends them.
#![tactic(auto)]

ghost use Rattle.std.specs.Prelude.{◌≡◌};
ghost use Rattle.cell_codes.specs.Codes.{cell_of};
ghost use Rattle.cell_walk.specs.Results.{search_out, lent};
ghost use Rattle.plain_search.specs.Outcome.{search_in, search_worked, search_outcome};
ghost use Rattle.plain_search.specs.SearchInner.{Ready};

use answers::{Found, Refusal};
use cell_table::CellView;
use pq_params::Shape;

// The work of a search that the tests let pass: damaged codes are refused; then the search in the one cell. At every end the table is zero.
fn search_ready(
    z: CellView<'_>,
    rows: &mut [u32],
    sums: &mut [f32],
    table: &mut [f32],
) -> Result<Found, Refusal>
    requires { Ready z (lent rows.old sums.old table.old) }
    ensures { search_out result rows.new sums.new table.new
        ≡ search_worked (cell_of z.entry) (lent rows.old sums.old table.old) }
{
    cell_walk::blank(rows, sums);
    if !cell_codes::codes_sound(z) {
        lists::fill(table, 0.0);
        return Err(Refusal::Damaged);
    }
    let answer = cell_walk::search_cell(z, rows, sums, 0, table);
    lists::fill(table, 0.0);
    answer
}

// Plain search: the first k candidates in order, k being the results' length; how many were found, and how many rows were scored.
pub fn search<'a>(
    s: Shape,
    n: usize,
    query: &'a [f32],
    mask: &'a [u8],
    subs: &'a [f32],
    codes: &'a [u8],
    rows: &mut [u32],
    sums: &mut [f32],
    table: &mut [f32],
) -> Result<Found, Refusal>
    ensures { search_out result rows.new sums.new table.new
        ≡ search_outcome (search_in s n query.now mask.now subs.now codes.now
        (lent rows.old sums.old table.old)) }
{
    let bad = pq_params::bad_plain(s);
    let l = pq_params::plain_lengths(s, n);
    let wrong = (query.len() != s.d)
        | (mask.len() != n)
        | (subs.len() != l.subs)
        | (codes.len() != l.codes)
        | (sums.len() != rows.len())
        | (table.len() != l.table);
    pq_params::search_refusal(bad, n, wrong, rows.len(), query)?;
    let whole = CellView {
        shape: s,
        cell: 0,
        n,
        query,
        center: None,
        subs,
        mask,
        codes,
        members: None,
    };
    search_ready(whole, rows, sums, table)
}
