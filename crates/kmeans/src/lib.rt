// k-means on one range of the coordinates, with or without a residual, over all rows or over a list of them: steps 1 to 5 in turn.
// The centres are a lent stretch of a flat buffer; each row's centre and each centre's rows stand in lent runs of numbers.
// What is written stays flat parameters: a struct of `&mut` would need a ghost name for each in every clause.
#![tactic(auto)]

ghost use Rattle.std.specs.Prelude.{◌≡◌, ◌*◌, ◌≤◌, length};
ghost use Rattle.kmeans_average.specs.Finite.{lowest_broken};
ghost use Rattle.kmeans_assign.specs.Task.{FramedGiven, task_given, row_given};
ghost use Rattle.kmeans_split.specs.Run.{run_of, Reached};
ghost use Rattle.kmeans.specs.Kmeans.{tested, averaged, epoch_of, beginning, train, Trainable};

use answers::{Step, Unclustered};
use kmeans_assign::{Frame, Given};

// The test for 9 after a step: the draws used so far, or the lowest centre that is not finite.
fn tested(
    f: Frame,
    centers: &[f32],
    step: Step,
    epoch: u32,
    used: usize,
) -> Result<usize, Unclustered>
    requires { (length centers.now ≡ f.centers * f.w) × (f.centers ≤ 1024) }
    ensures { result ≡ tested step epoch used (lowest_broken centers.now f.w f.centers) }
{
    match kmeans_average::lowest_broken(centers, f.w, f.centers) {
        Some(i) => Err(Unclustered::NotFinite {
            step,
            epoch,
            center: i as u32,
        }),
        None => Ok(used),
    }
}

// Steps 3 and 4 of one epoch, with the test for 9.
fn average(
    g: Given<'_>,
    used: usize,
    epoch: u32,
    centers: &mut [f32],
    assigned: &mut [u32],
    counts: &mut [u32],
) -> Result<usize, Unclustered>
    requires framed { FramedGiven g }
    requires centers_len { (length centers.old ≡ g.frame.centers * g.frame.w) × (length assigned.old ≡ g.frame.n)
        × (length counts.old ≡ g.frame.centers) }
    ensures { let before = run_of (Ok used) centers.old assigned.old counts.old in
        run_of result centers.new assigned.new counts.new ≡ averaged (row_given g.entry) epoch before used }
{
    kmeans_assign::search_data(g, centers, assigned);
    kmeans_average::update_center(g, assigned, centers, counts);
    tested(g.frame, centers, Step::Averaging, epoch, used)
}

// One epoch: assign, average, and split unless it is the last.
fn run_epoch(
    g: Given<'_>,
    draws: &[f64],
    used: usize,
    epoch: u32,
    epochs: u32,
    centers: &mut [f32],
    assigned: &mut [u32],
    counts: &mut [u32],
) -> Result<usize, Unclustered>
    requires framed { FramedGiven g }
    requires trainable { Trainable g.frame draws.now used centers.old assigned.old counts.old }
    ensures { let before = run_of (Ok used) centers.old assigned.old counts.old in
        let t = task_given g.entry epochs draws.now in
        run_of result centers.new assigned.new counts.new ≡ epoch_of t epoch before used }
{
    let at = average(g, used, epoch, centers, assigned, counts)?;
    if epoch < epochs {
        kmeans_split::split_center(g.frame, draws, at, epoch, centers, counts)
    } else {
        Ok(at)
    }
}

// All epochs, from the centres of the start on.
fn run_epochs(
    g: Given<'_>,
    draws: &[f64],
    used: usize,
    epochs: u32,
    centers: &mut [f32],
    assigned: &mut [u32],
    counts: &mut [u32],
) -> Result<usize, Unclustered>
    requires framed { FramedGiven g }
    requires trainable { Trainable g.frame draws.now used centers.old assigned.old counts.old }
    requires fact { let before = run_of (Ok used) centers.old assigned.old counts.old in
        (epochs ≤ 1000) × (before ≡ beginning (task_given g epochs draws.now) used) }
    ensures { run_of result centers.new assigned.new counts.new ≡ train (task_given g.entry epochs draws.now) used }
{
    let mut at = used;
    for e in 0..epochs {
        at = run_epoch(g, draws, at, e + 1, epochs, centers, assigned, counts)?;
    }
    Ok(at)
}

// The whole k-means but the last assignment, `used` draws having been used before it.
pub fn train(
    g: Given<'_>,
    draws: &[f64],
    used: usize,
    epochs: u32,
    centers: &mut [f32],
    assigned: &mut [u32],
    counts: &mut [u32],
) -> Result<usize, Unclustered>
    requires framed { FramedGiven g }
    requires trainable { Trainable g.frame draws.now used centers.old assigned.old counts.old }
    requires epochs_bound { epochs ≤ 1000 }
    ensures { let t = task_given g.entry epochs draws.now in
        Reached (run_of result centers.new assigned.new counts.new) (train t used) }
{
    kmeans_start::init_center(g, centers);
    lists::fill(assigned, 0);
    lists::fill(counts, 0);
    tested(g.frame, centers, Step::Start, 0, used)?;
    run_epochs(g, draws, used, epochs, centers, assigned, counts)
}
