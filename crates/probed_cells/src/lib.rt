// The probed cells of a celled index: step 3's tests over all of them, and steps 4 and 5, cell by cell in probe order.
#![tactic(auto)]

ghost use Rattle.std.specs.Prelude.{◌≡◌, ◌<◌, length};
ghost use Rattle.lists.specs.Tests.{every};
ghost use Rattle.neighbor.specs.Held.{Held};
ghost use Rattle.cell_walk.specs.Results.{search_out, lent};
ghost use Rattle.cell_walk.specs.CellInner.{cell_outcome};
ghost use Rattle.probed_cells.specs.Search.{asking_in, cell_at, cell_sound};
ghost use Rattle.probed_cells.specs.ProbedInner.{view_of, Listed, CellsIn, sound_at, Walking, Probing, Cleared, probed_outcome};

use answers::{Found, Refusal};
use cell_table::CellView;
use celled_lists::CelledIndex;

// What is asked of an index: the nearest rows to a query, of those that a mask shows.
#[derive(Clone, Copy, Debug, PartialEq)]
pub struct Asking<'a> {
    pub index: CelledIndex<'a>,
    pub query: &'a [f32],
    pub mask: &'a [u8],
}

impl<'a> Asking<'a> {
    // Cell c as the search in one cell meets it, with its list, and with its coarse centre where that is looked at.
    fn cell(self, c: usize, list: &'a [u32], center: Option<&'a [f32]>) -> CellView<'a>
        ensures { result ≡ view_of self.entry c list.entry center.entry }
    {
        let x = self.index;
        CellView {
            shape: x.shape.plain,
            cell: c,
            n: list.len(),
            query: self.query,
            center,
            subs: x.subs,
            mask: self.mask,
            codes: x.codes,
            members: Some(list),
        }
    }
}

// Step 3 in cell c: whether its members are below n and strictly rising, and its visible rows' codes below K.
fn cell_sound(a: Asking<'_>, c: usize) -> bool
    requires { Listed (asking_in a) × (c < a.index.shape.cells) }
    ensures { result ≡ cell_sound (asking_in a.entry) c }
{
    let list = a.index.list(c);
    celled_lists::list_sound(list, a.index.n) && cell_codes::codes_sound(a.cell(c, list, None))
}

// Step 3 over all probed cells.
pub fn probed_sound(a: Asking<'_>, probed: &[u32]) -> bool
    requires { Listed (asking_in a) × CellsIn a.index.shape.cells probed.now }
    ensures { result ≡ every (sound_at (asking_in a.entry) probed.now) (length probed.now) }
{
    probed.iter().all(|c| cell_sound(a, *c as usize))
}

// Steps 4 and 5 in cell c, into results that hold the candidates of the cells before.
fn search_listed(
    a: Asking<'_>,
    c: usize,
    rows: &mut [u32],
    sums: &mut [f32],
    found: usize,
    table: &mut [f32],
) -> Result<Found, Refusal>
    requires walking { Walking (asking_in a) c table.old }
    requires held { Held rows.old sums.old found }
    ensures { search_out result rows.new sums.new table.new ≡
        cell_outcome (cell_at (asking_in a.entry) c) (lent rows.old sums.old table.old) found }
{
    let x = a.index;
    let list = x.list(c);
    let center = lists::stretch(x.coarse, c, x.shape.plain.d);
    let z = a.cell(c, list, Some(center));
    cell_walk::search_cell(z, rows, sums, found, table)
}

// Steps 4 and 5 over all probed cells in their order, into blank results; a refusal leaves them blank. At every end the table is zero.
pub fn search_probed(
    a: Asking<'_>,
    probed: &[u32],
    rows: &mut [u32],
    sums: &mut [f32],
    table: &mut [f32],
) -> Result<Found, Refusal>
    requires probing { Probing (asking_in a) probed.now table.old }
    requires cleared { Cleared (lent rows.old sums.old table.old) }
    ensures { search_out result rows.new sums.new table.new ≡
        probed_outcome (asking_in a.entry) (lent rows.old sums.old table.old) }
{
    let mut found = 0;
    let mut scored = 0;
    for &c in probed {
        let kept = search_listed(a, c as usize, rows, sums, found, table)?;
        found = kept.found;
        scored += kept.scored;
    }
    lists::fill(table, 0.0);
    Ok(Found { found, scored })
}
