// Training of the plain index: one list of all rows, without residual; then the code of each row.
// The entry point's parameters stay flat, as C lends them. What is written does throughout: a struct of `&mut` would need a ghost name for each
// in every clause.
#![tactic(auto)]

ghost use Rattle.std.specs.Prelude.{◌≡◌};
ghost use Rattle.lists.specs.Lists.{grid};
ghost use Rattle.plain_train.specs.Outcome.{train_in, train_out, train_ended, train_outcome};
ghost use Rattle.plain_train.specs.TrainInner.{Ready, Codable, code_in};

use answers::Untrained;
use pq_params::Shape;
use pq_train::RowList;

// The codes of all rows, each against the finished sub-centres.
fn fill_codes(l: RowList<'_>, subs: &[f32], codes: &mut [u8])
    requires { Codable l subs.now codes.old }
    ensures { codes.new ≡ grid (code_in l.entry.shape l.entry.rows.now subs.now) l.entry.n l.entry.shape.nsub }
{
    for m in 0..l.n {
        pq_train::fill_row(l, m, subs, codes);
    }
}

// The work of a training whose input has passed the tests.
fn train_ready(
    s: Shape,
    epochs: usize,
    n: usize,
    rows: &[f32],
    draws: &[f64],
    subs: &mut [f32],
    codes: &mut [u8],
    work: &mut [u32],
) -> Result<usize, Untrained>
    requires { Ready (train_in s epochs n rows.now draws.now subs.old codes.old work.old) }
    ensures { train_out result subs.new codes.new work.new
        ≡ train_ended (train_in s epochs n rows.now draws.now subs.old codes.old work.old) }
{
    let l = RowList {
        shape: s,
        epochs: epochs as u32,
        cell: 0,
        n,
        rows,
        members: None,
        center: None,
    };
    let t = pq_train::train_list(l, draws, 0, subs, &mut work[..n]);
    lists::fill(work, 0);
    match t {
        Ok(_) => fill_codes(l, subs, codes),
        Err(_) => lists::fill(codes, 0),
    }
    t
}

// Training of the plain index, for any input: its sub-centres and codes, or a refusal.
pub fn train(
    s: Shape,
    epochs: usize,
    n: usize,
    rows: &[f32],
    draws: &[f64],
    subs: &mut [f32],
    codes: &mut [u8],
    work: &mut [u32],
) -> Result<usize, Untrained>
    ensures { train_out result subs.new codes.new work.new
        ≡ train_outcome (train_in s epochs n rows.now draws.now subs.old codes.old work.old) }
{
    let bad = pq_params::bad_plain(s) | pq_params::bad_epochs(epochs);
    let l = pq_params::plain_lengths(s, n);
    let wrong = (rows.len() != l.rows)
        | (subs.len() != l.subs)
        | (codes.len() != l.codes)
        | (work.len() != l.work)
        | pq_params::too_many_draws(draws.len());
    pq_params::train_refusal(bad, n, wrong, rows, draws)?;
    train_ready(s, epochs, n, rows, draws, subs, codes, work)
}
