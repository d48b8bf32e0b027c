// Celled training: coarse k-means over all rows, the lists, the sub-centres of each cell, and the code of each row.
// The entry point's parameters stay flat, as C lends them. What is written does throughout: a struct of `&mut` would need a ghost name for each
// in every clause.
#![tactic(auto)]

ghost use Rattle.std.specs.Prelude.{◌≡◌, ◌*◌, length};
ghost use Rattle.celled_lists.specs.Index.{index_in, index_of};
ghost use Rattle.celled_train.specs.Outcome.{train_in, train_out, train_ended, train_outcome};
ghost use Rattle.celled_cells.specs.CellsInner.{given_by, Held};
ghost use Rattle.celled_train.specs.TrainInner.{Lent, CoarseMade, CellsMade};
ghost use Rattle.celled_train.specs.TrainInner.{refusal_by, Ready, Stepped, Cleared};

use answers::{Refusal, Stage, Unclustered, Untrained};
use celled_cells::Celled;
use celled_fill::CellLists;
use celled_lists::CelledIndex;
use kmeans_assign::Given;
use pq_params::CelledShape;

// The coarse k-means.
fn train_coarse(
    l: &Celled<'_>,
    coarse: &mut [f32],
    assigned: &mut [u32],
) -> Result<usize, Unclustered>
    requires held { Held (given_by l.now) }
    requires coarse_len { (length coarse.old ≡ l.now.shape.cells * l.now.shape.plain.d) × (length assigned.old ≡ l.now.n) }
    ensures { CoarseMade (given_by l.now) result coarse.new }
{
    let mut counts = [0u32; 1024];
    let cells = l.shape.cells;
    let g = Given {
        frame: celled_fill::coarse_frame(l.shape, l.n),
        rows: l.rows,
        members: None,
        residual: None,
    };
    kmeans::train(
        g,
        l.draws,
        0,
        l.epochs,
        coarse,
        assigned,
        &mut counts[..cells],
    )
}

// The coarse k-means, the cell of each row, and from these the lists. Where the k-means is refused, no list is made.
fn make_cells(
    l: &Celled<'_>,
    coarse: &mut [f32],
    starts: &mut [u32],
    members: &mut [u32],
    work: &mut [u32],
) -> Result<usize, Unclustered>
    requires held { Held (given_by l.now) }
    requires lent { Lent (given_by l.now) coarse.old starts.old members.old work.old }
    ensures { CellsMade (given_by l.now) result coarse.new starts.new members.new }
{
    let n = l.n;
    let used = train_coarse(l, coarse, &mut work[..n])?;
    celled_fill::fill_lists(l.shape, n, l.rows, coarse, starts, members, work);
    Ok(used)
}

// All steps in turn: the coarse k-means, the lists, the cells rising, and the codes.
fn train_steps(
    l: &Celled<'_>,
    coarse: &mut [f32],
    starts: &mut [u32],
    members: &mut [u32],
    subs: &mut [f32],
    codes: &mut [u8],
    work: &mut [u32],
) -> Result<usize, Untrained>
    requires { Ready (train_in l.now.epochs l.now.rows.now l.now.draws.now (index_of l.now.shape l.now.n coarse.old
        starts.old members.old subs.old codes.old) work.old) }
    ensures { Stepped (given_by l.now) result (index_of l.now.shape l.now.n coarse.new
        starts.new members.new subs.new codes.new) }
{
    let c = make_cells(l, coarse, starts, members, work);
    let start = answers::at_stage(Stage::Coarse, c)?;
    let n = l.n;
    let x = CellLists {
        coarse,
        starts,
        members,
    };
    let used = celled_cells::train_cells(l, &x, start, subs, &mut work[..n])?;
    celled_fill::fill_codes(l.shape, l.rows, &x, subs, codes);
    Ok(used)
}

// Every output becomes zero.
fn clear(
    coarse: &mut [f32],
    starts: &mut [u32],
    members: &mut [u32],
    subs: &mut [f32],
    codes: &mut [u8],
)
    ensures { Cleared coarse.old starts.old members.old subs.old codes.old
        coarse.new starts.new members.new subs.new codes.new }
{
    lists::fill(coarse, 0.0);
    lists::fill(starts, 0);
    lists::fill(members, 0);
    lists::fill(subs, 0.0);
    lists::fill(codes, 0);
}

// The work of a training whose input has passed the tests: a refusal leaves every output zero, and work is zero afterwards.
fn train_ready(
    l: &Celled<'_>,
    coarse: &mut [f32],
    starts: &mut [u32],
    members: &mut [u32],
    subs: &mut [f32],
    codes: &mut [u8],
    work: &mut [u32],
) -> Result<usize, Untrained>
    requires { Ready (train_in l.now.epochs l.now.rows.now l.now.draws.now (index_of l.now.shape l.now.n coarse.old
        starts.old members.old subs.old codes.old) work.old) }
    ensures { train_out result (index_of l.now.shape l.now.n coarse.new starts.new members.new
        subs.new codes.new) work.new
        ≡ train_ended (train_in l.now.epochs l.now.rows.now l.now.draws.now (index_of l.now.shape l.now.n coarse.old
        starts.old members.old subs.old codes.old) work.old) }
{
    let t = train_steps(l, coarse, starts, members, subs, codes, work);
    lists::fill(work, 0);
    if t.is_err() {
        clear(coarse, starts, members, subs, codes);
    }
    t
}

// Tests 1, 2, 3, 4, 6, 7 in that order: the first that refuses. `x` has what is lent for the index.
fn train_refusal(
    x: &CelledIndex<'_>,
    epochs: usize,
    rows: &[f32],
    draws: &[f64],
    work: usize,
) -> Result<(), Refusal>
    ensures { result ≡ refusal_by (index_in x.now) epochs rows.now draws.now work }
{
    let bad = pq_params::bad_celled(x.shape) | pq_params::bad_epochs(epochs);
    let long = pq_params::celled_lengths(x.shape, x.n);
    let index = celled_lists::bad_index_lengths(x.shape, x.n, x.lengths());
    let many = pq_params::too_many_draws(draws.len());
    let wrong = index | (rows.len() != long.rows) | (work != long.work) | many;
    pq_params::train_refusal(bad, x.n, wrong, rows, draws)
}

// Training of the celled index, for any input: its coarse centres, lists, sub-centres and codes, or a refusal.
pub fn train(
    s: CelledShape,
    epochs: usize,
    n: usize,
    rows: &[f32],
    draws: &[f64],
    coarse: &mut [f32],
    starts: &mut [u32],
    members: &mut [u32],
    subs: &mut [f32],
    codes: &mut [u8],
    work: &mut [u32],
) -> Result<usize, Untrained>
    ensures { train_out result (index_of s n coarse.new starts.new members.new subs.new
        codes.new) work.new
        ≡ train_outcome (train_in epochs rows.now draws.now (index_of s n coarse.old starts.old
        members.old subs.old codes.old) work.old) }
{
    let lent = CelledIndex {
        shape: s,
        n,
        coarse,
        starts,
        members,
        subs,
        codes,
    };
    train_refusal(&lent, epochs, rows, draws, work.len())?;
    let l = Celled {
        shape: s,
        epochs: epochs as u32,
        n,
        rows,
        draws,
    };
    train_ready(&l, coarse, starts, members, subs, codes, work)
}
