// The cells of a celled training, rising: the sub-centres of each from its list, less its coarse centre, draws running through.
// What is written stays flat parameters: a struct of `&mut` would need a ghost name for each in every clause.
#![tactic(auto)]

ghost use Rattle.celled_cells.specs.CellsInner.{given_by, CellsHeld, ListHeld, CellLent, CellTrained, CellAt, CellPlaced};
ghost use Rattle.celled_cells.specs.CellsInner.{CellsLent, CellsTrained};

use answers::Untrained;
use celled_fill::CellLists;
use pq_params::CelledShape;
use pq_train::RowList;

// What a celled training goes over: the index's numbers, the epochs, the rows and the draws.
#[derive(Clone, Copy, Debug, PartialEq)]
pub struct Celled<'a> {
    pub shape: CelledShape,
    pub epochs: u32,
    pub n: usize,
    pub rows: &'a [f32],
    pub draws: &'a [f64],
}

// The sub-centres of a cell that has rows, from its list. `coarse` goes on from its centre; what comes after that is not read.
fn train_listed(
    l: &Celled<'_>,
    c: usize,
    coarse: &[f32],
    list: &[u32],
    used: usize,
    subs: &mut [f32],
    assigned: &mut [u32],
) -> Result<usize, Untrained>
    requires list_held { ListHeld (given_by l.now) c coarse.now list.now }
    requires cell_lent { CellLent (given_by l.now) c used subs.old assigned.old }
    ensures { CellTrained (given_by l.now) c result subs.new }
{
    let r = RowList {
        shape: l.shape.plain,
        epochs: l.epochs,
        cell: c as u32,
        n: list.len(),
        rows: l.rows,
        members: Some(list),
        center: Some(coarse),
    };
    pq_train::train_list(r, l.draws, used, subs, &mut assigned[..list.len()])
}

// One cell: the sub-centres of its list into its own stretch. An empty cell has zero sub-centres and uses no draws.
fn train_cell(
    l: &Celled<'_>,
    x: &CellLists<'_>,
    c: usize,
    used: usize,
    subs: &mut [f32],
    assigned: &mut [u32],
) -> Result<usize, Untrained>
    requires cells_held { CellsHeld (given_by l.now) x.now.coarse.now x.now.starts.now x.now.members.now }
    requires cell_lent { CellLent (given_by l.now) c used subs.old assigned.old }
    ensures { CellTrained (given_by l.now) c result subs.new }
{
    let list = celled_lists::cell_list(x.starts, x.members, c);
    if list.is_empty() {
        lists::fill(subs, 0.0);
        return Ok(used);
    }
    let at = c * l.shape.plain.d;
    train_listed(l, c, &x.coarse[at..], list, used, subs, assigned)
}

// Cell c, into its own stretch of all sub-centres, each of which is `long`.
fn train_cell_at(
    l: &Celled<'_>,
    x: &CellLists<'_>,
    c: usize,
    long: usize,
    used: usize,
    subs: &mut [f32],
    assigned: &mut [u32],
) -> Result<usize, Untrained>
    requires cells_held { CellsHeld (given_by l.now) x.now.coarse.now x.now.starts.now x.now.members.now }
    requires cell_at { CellAt (given_by l.now) c long used subs.old assigned.old }
    ensures { CellPlaced (given_by l.now) c long subs.old result subs.new }
{
    let at = c * long;
    let e = at + long;
    train_cell(l, x, c, used, &mut subs[at..e], assigned)
}

// All cells, rising; the draws that the coarse k-means used are carried on.
pub fn train_cells(
    l: &Celled<'_>,
    x: &CellLists<'_>,
    start: usize,
    subs: &mut [f32],
    assigned: &mut [u32],
) -> Result<usize, Untrained>
    requires cells_held { CellsHeld (given_by l.now) x.now.coarse.now x.now.starts.now x.now.members.now }
    requires cells_lent { CellsLent (given_by l.now) start subs.old assigned.old }
    ensures { CellsTrained (given_by l.now) result subs.new }
{
    let long = pq_params::subs_long(l.shape.plain);
    let mut used = start;
    for c in 0..l.shape.cells {
        used = train_cell_at(l, x, c, long, used, subs, assigned)?;
    }
    Ok(used)
}
