// Filling against given centres: from the coarse centres the cell of each row and the lists; from these and the sub-centres the codes of
// each row.
// What is written stays flat parameters: a struct of `&mut` would need a ghost name for each in every clause.
#![tactic(auto)]

ghost use Rattle.std.specs.Prelude.{◌≡◌, ◌<◌, length};
ghost use Rattle.lists.specs.Lists.{tab};
ghost use Rattle.celled_fill.specs.Fill.{cell_at, filled_codes};
ghost use Rattle.celled_fill.specs.FillInner.{coarse_frame, Rows, Lent, Filled, coded_to, code_listed, coded_cell, Listed, Coding};

use kmeans_assign::{Frame, Given};
use pq_params::CelledShape;
use pq_train::RowList;

// What the coarse stage of a celled index makes: the centres of its cells, and the list of each.
#[derive(Clone, Copy, Debug, PartialEq)]
pub struct CellLists<'a> {
    pub coarse: &'a [f32],
    pub starts: &'a [u32],
    pub members: &'a [u32],
}

// The frame of the coarse centres: all rows and coordinates.
pub fn coarse_frame(s: CelledShape, n: usize) -> Frame
    ensures { result ≡ coarse_frame s n }
{
    let z = s.plain;
    Frame {
        d: z.d,
        begin: 0,
        w: z.d,
        n,
        centers: s.cells,
    }
}

// The cell of each row: the coarse centre that it is assigned to.
fn assign_cells(s: CelledShape, n: usize, rows: &[f32], coarse: &[f32], cells: &mut [u32])
    requires { Rows s n rows.now coarse.now × (length cells.old ≡ n) }
    ensures { cells.new ≡ tab (cell_at s coarse.now rows.now) n }
{
    let g = Given {
        frame: coarse_frame(s, n),
        rows,
        members: None,
        residual: None,
    };
    kmeans_assign::search_data(g, coarse, cells);
}

// The cell of each row, and from these the lists: each row in its cell, numbers rising. Work is zero afterwards.
pub fn fill_lists(
    s: CelledShape,
    n: usize,
    rows: &[f32],
    coarse: &[f32],
    starts: &mut [u32],
    members: &mut [u32],
    work: &mut [u32],
)
    requires { Rows s n rows.now coarse.now × Lent s n starts.old members.old work.old }
    ensures { Filled s n rows.now coarse.now work.old
        starts.new members.new work.new }
{
    assign_cells(s, n, rows, coarse, &mut work[..n]);
    celled_lists::fill_lists(s.cells, n, starts, members, work);
}

// The codes of the rows of a list, less its centre, against its sub-centres.
fn fill_listed(l: RowList<'_>, list: &[u32], subs: &[f32], codes: &mut [u8])
    requires { Listed l list.now subs.now codes.old }
    ensures { codes.new ≡ coded_to (code_listed l.entry subs.now) l.entry.shape.nsub list.now (length list.now) codes.old }
{
    for m in list {
        pq_train::fill_row(l, *m as usize, subs, codes);
    }
}

// The codes of the rows of cell c.
fn fill_cell(
    s: CelledShape,
    c: usize,
    rows: &[f32],
    x: &CellLists<'_>,
    subs: &[f32],
    codes: &mut [u8],
)
    requires { Coding s rows.now x.now.coarse.now x.now.starts.now x.now.members.now subs.now codes.old × (c < s.cells) }
    ensures { codes.new ≡ coded_cell s (length x.now.members.now) c rows.now x.now.coarse.now
        subs.now codes.old }
{
    let z = s.plain;
    let list = celled_lists::cell_list(x.starts, x.members, c);
    let center = lists::stretch(x.coarse, c, z.d);
    let own = lists::stretch(subs, c, pq_params::subs_long(z));
    let l = RowList {
        shape: z,
        epochs: 0,
        cell: 0,
        n: list.len(),
        rows,
        members: Some(list),
        center: Some(center),
    };
    fill_listed(l, list, own, codes);
}

// The codes of all rows, cells rising, each row against the sub-centres of its cell, less the coarse centre.
pub fn fill_codes(s: CelledShape, rows: &[f32], x: &CellLists<'_>, subs: &[f32], codes: &mut [u8])
    requires { Coding s rows.now x.now.coarse.now x.now.starts.now x.now.members.now subs.now codes.old }
    ensures { codes.new ≡ filled_codes s x.now.coarse.now subs.now rows.now
        (length x.now.members.now) }
{
    for c in 0..s.cells {
        fill_cell(s, c, rows, x, subs, codes);
    }
}
