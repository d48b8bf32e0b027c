// The search in one cell: its table, then its rows, a stretch at a time, into the results by way of a batch.
// What is written stays flat parameters: a struct of `&mut` would need a ghost name for each in every clause.
#![tactic(auto)]

ghost use Rattle.std.specs.Prelude.{◌≡◌, ◌+◌, ◌≤◌, ◌<◌, length};
ghost use Rattle.neighbor.specs.Held.{Held};
ghost use Rattle.cell_codes.specs.Codes.{row_at, visible, cell_of};
ghost use Rattle.cell_stretch.specs.StretchInner.{Ready, sums_of};
ghost use Rattle.cell_walk.specs.WalkInner.{Walked, Scanned, Blank};
ghost use Rattle.cell_walk.specs.Results.{lent, search_out};
ghost use Rattle.cell_walk.specs.CellInner.{Searching, cell_outcome};

use answers::{Found, Refusal};
use cell_table::CellView;
use neighbor::Candidate;

// Where the stretch from `from` on ends: 64 rows on, or at the last row.
fn stretch_end(n: usize, from: usize) -> usize
    requires { from < n }
    ensures { (from < result) × (result ≤ n) × (result ≤ from + 64) }
{
    from + (n - from).min(64)
}

// All rows of the cell in their order, into the results, by way of a batch; refused at a stretch with a sum that is not finite.
fn walk_by_batch(
    z: CellView<'_>,
    centers: usize,
    table: &[f32],
    rows: &mut [u32],
    sums: &mut [f32],
    found: usize,
    batch: &mut [Candidate],
) -> Result<Found, Refusal>
    requires ready { Ready z centers table.now × Held rows.old sums.old found }
    requires batch_len { 0 < length batch.old }
    ensures { Walked (sums_of z.entry centers table.now) (visible z.entry.mask.now) (row_at z.entry) z.entry.n
        rows.old sums.old found rows.new sums.new result }
{
    let mut holds = found;
    let mut waiting: usize = 0;
    let mut scored: usize = 0;
    let mut from: usize = 0;
    // By stretches, of which the last may be shorter: a `for` with `step_by` would need the end of each once more.
    while from < z.n {
        let to = stretch_end(z.n, from);
        let went = cell_stretch::visit_stretch(
            z, centers, table, from, to, rows, sums, holds, batch, waiting,
        )?;
        holds = went.found;
        waiting = went.waiting;
        scored += went.count;
        from = to;
    }
    let found = neighbor::merge(rows, sums, holds, &batch[..waiting]);
    Ok(Found { found, scored })
}

// How many candidates wait at most, for k places: few where k is small, so that the results soon tell what to pass over.
fn batch_length(k: usize) -> usize
    ensures { (0 < result) × (result ≤ 256) }
{
    (16 + k / 16).min(256)
}

// All rows of the cell in their order, into the results.
fn walk_rows(
    z: CellView<'_>,
    centers: usize,
    table: &[f32],
    rows: &mut [u32],
    sums: &mut [f32],
    found: usize,
) -> Result<Found, Refusal>
    requires { Ready z centers table.now × Held rows.old sums.old found }
    ensures { Walked (sums_of z.entry centers table.now) (visible z.entry.mask.now) (row_at z.entry) z.entry.n
        rows.old sums.old found rows.new sums.new result }
{
    let mut batch = [Candidate { sum: 0.0, row: 0 }; 256];
    let b = batch_length(rows.len());
    walk_by_batch(z, centers, table, rows, sums, found, &mut batch[..b])
}

// Every place of the results becomes blank: C reads no row in 4,294,967,295.
pub fn blank(rows: &mut [u32], sums: &mut [f32])
    requires { length sums.old ≡ length rows.old }
    ensures { Blank (length rows.old) rows.new sums.new }
{
    lists::fill(rows, 4_294_967_295);
    lists::fill(sums, 0.0);
}

// Step 5 by the cell's table: its rows into the results. In a refusal the results are blank and the table is zero.
fn walk_cell(
    z: CellView<'_>,
    centers: usize,
    rows: &mut [u32],
    sums: &mut [f32],
    found: usize,
    table: &mut [f32],
) -> Result<Found, Refusal>
    requires { Ready z centers table.old × Held rows.old sums.old found }
    ensures { Scanned (sums_of z.entry centers table.old) (visible z.entry.mask.now) (row_at z.entry) z.entry.n
        rows.old sums.old found table.old rows.new sums.new table.new result }
{
    let answer = walk_rows(z, centers, table, rows, sums, found);
    if answer.is_err() {
        blank(rows, sums);
        lists::fill(table, 0.0);
    }
    answer
}

// One cell: its table, then its rows into the results, which hold the candidates of earlier cells. Of both the first k stay, in order.
// Without a visible row nothing is worked. In a refusal the results are blank and the table is zero.
pub fn search_cell(
    z: CellView<'_>,
    rows: &mut [u32],
    sums: &mut [f32],
    found: usize,
    table: &mut [f32],
) -> Result<Found, Refusal>
    requires searching { Searching z table.old }
    requires held { Held rows.old sums.old found }
    ensures { search_out result rows.new sums.new table.new ≡
        cell_outcome (cell_of z.entry) (lent rows.old sums.old table.old) found }
{
    if !cell_codes::any_visible(z) {
        return Ok(Found { found, scored: 0 });
    }
    if let Err(why) = cell_table::fill_table(z, table) {
        blank(rows, sums);
        return Err(why);
    }
    let centers = pq_params::centers(z.shape.bits);
    walk_cell(z, centers, rows, sums, found, table)
}
