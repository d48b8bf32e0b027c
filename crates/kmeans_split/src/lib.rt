// k-means' step 5: each empty centre is split off a donor that the draws choose.
// What is written stays flat parameters: a struct of `&mut` would need a ghost name for each in every clause.
#![tactic(auto)]

ghost use Rattle.std.specs.Prelude.{◌≡◌, cond, List, [], ℕ, ◌+◌, ◌*◌, ◌%◌, ◌≤◌, ◌<◌, length, get_or, eqb, pos};
ghost use Rattle.std.specs.Float.Ieee.{mul, div, of_int};
ghost use Rattle.std.specs.Float.{binary32, binary64};
ghost use Rattle.lists.specs.Lists.{tab, put_part};
ghost use Rattle.metrics.specs.Distance.{coordinate};
ghost use Rattle.kmeans_split.specs.Run.{run_with, Reached};
ghost use Rattle.kmeans_split.specs.Split.{down32, up32, got_at, split_centers, split_counts, steps_of, split_off};
ghost use Rattle.kmeans_split.specs.Split.{fill_center, fill_if_empty, split_to, split_task, Splittable};
ghost use Rattle.kmeans_split.specs.SplitInner.{left_in};

use answers::{Step, Unclustered};
use kmeans_assign::Frame;

// What a centre and its split-off twin are moved apart by.
const UP: f32 = 1.0 + 1.0 / 1024.0;

const DOWN: f32 = 1.0 - 1.0 / 1024.0;

// A coordinate moved down where j is even, and up where it is odd.
fn down_up(x: f32, j: usize) -> f32
    ensures { result ≡ mul binary32 x (cond (eqb (j % 2) 0) down32 up32) }
{
    if j % 2 == 0 { x * DOWN } else { x * UP }
}

// A coordinate moved up where j is even, and down where it is odd.
fn up_down(x: f32, j: usize) -> f32
    ensures { result ≡ mul binary32 x (cond (eqb (j % 2) 0) up32 down32) }
{
    if j % 2 == 0 { x * UP } else { x * DOWN }
}

// Centre i becomes the donor's twin.
fn give(centers: &mut [f32], w: usize, i: usize, a: usize)
    requires { (i * w + w ≤ length centers.old) × (a * w + w ≤ length centers.old) × (a ≡ i → ⊥) }
    ensures { let cs = centers.old in
        centers.new ≡ put_part cs (i * w) w (tab (got_at (coordinate cs w a)) w) }
{
    let to = i * w;
    let from = a * w;
    // By index: two places of one slice are read and written.
    for j in 0..w {
        centers[to + j] = down_up(centers[from + j], j);
    }
}

// A centre is moved the other way.
fn keep_rest(center: &mut [f32])
    ensures { center.new ≡ tab (left_in center.old) (length center.old) }
{
    for (j, coordinate) in center.iter_mut().enumerate() {
        *coordinate = up_down(*coordinate, j);
    }
}

// Centre i is split off the donor a.
fn split_coordinates(centers: &mut [f32], w: usize, i: usize, a: usize)
    requires { (i * w + w ≤ length centers.old) × (a * w + w ≤ length centers.old) × (a ≡ i → ⊥) }
    ensures { centers.new ≡ split_centers centers.old w i a }
{
    give(centers, w, i, a);
    let b = a * w;
    let e = b + w;
    keep_rest(&mut centers[b..e]);
}

// Half of the donor's rows go to centre i, and it keeps the rest.
#[tactic(auto, unfolding(crate::specs::Split::split_counts))]
fn split_count(counts: &mut [u32], i: usize, a: usize)
    requires { (i < length counts.old) × (a < length counts.old) }
    ensures { counts.new ≡ split_counts counts.old i a }
{
    let q = counts[a];
    counts[i] = q / 2;
    counts[a] = q - q / 2;
}

// The centre after a, going round.
fn next_center(a: usize, n: usize) -> usize
    requires { a < n }
    ensures { result ≡ (a + 1) % n }
{
    if a + 1 < n { a + 1 } else { 0 }
}

// A centre's share of the rows.
fn share(count: u32, n: u32) -> f64
    ensures { result ≡ div binary64 (of_int binary64 (pos count)) (of_int binary64 (pos n)) }
{
    (count as f64) / (n as f64)
}

// The steps of the donor walk of centre i before the one that takes its donor, if one of the draws that are left does.
fn steps(f: Frame, draws: &[f64], used: usize, counts: &[u32], i: usize) -> Option<usize>
    requires { (f.n ≤ 100_001) × (length counts.now ≡ f.centers) × (i < f.centers) × (used ≤ length draws.now) }
    ensures { result ≡ steps_of (split_task f draws.now) counts.now used i }
{
    let mut a = next_center(i, f.centers);
    for (s, draw) in draws[used..].iter().enumerate() {
        if *draw < share(counts[a], f.n as u32) {
            return Some(s);
        }
        a = next_center(a, f.centers);
    }
    None
}

// Centre i is split off the donor a; both are tested for 9.
fn split_off(
    f: Frame,
    epoch: u32,
    i: usize,
    a: usize,
    used: usize,
    centers: &mut [f32],
    counts: &mut [u32],
) -> Result<usize, Unclustered>
    requires { (f.centers ≤ 1024) × (i < f.centers) × (a < f.centers) × (a ≡ i → ⊥)
        × (length centers.old ≡ f.centers * f.w) × (length counts.old ≡ f.centers) }
    ensures { let before = run_with (Ok used) centers.old counts.old in
        let after = run_with result centers.new counts.new in
        ((to : List ℕ) → after to ≡ split_off (split_task f []) epoch i a used (before to)) }
{
    split_coordinates(centers, f.w, i, a);
    split_count(counts, i, a);
    let kept = kmeans_average::finite_center(centers, f.w, a);
    let got = kmeans_average::finite_center(centers, f.w, i);
    if got & kept {
        Ok(used)
    } else {
        Err(Unclustered::NotFinite {
            step: Step::Splitting,
            epoch,
            center: i as u32,
        })
    }
}

// The empty centre i is filled, or the draws end first.
fn fill_center(
    f: Frame,
    draws: &[f64],
    used: usize,
    epoch: u32,
    i: usize,
    centers: &mut [f32],
    counts: &mut [u32],
) -> Result<usize, Unclustered>
    requires splittable { Splittable f draws.now used centers.old counts.old }
    requires i_lt_centers { (i < f.centers) × (get_or counts.old i 0 ≡ 0) }
    ensures { let before = run_with (Ok used) centers.old counts.old in
        let after = run_with result centers.new counts.new in
        let t = split_task f draws.now in
        ((to : List ℕ) → after to ≡ fill_center t epoch i used (before to)) }
{
    let Some(s) = steps(f, draws, used, counts, i) else {
        return Err(Unclustered::OutOfDraws {
            epoch,
            center: i as u32,
        });
    };
    let a = (i + 1 + s) % f.centers;
    split_off(f, epoch, i, a, used + s + 1, centers, counts)
}

// Centre i is filled if it is empty.
fn fill_if_empty(
    f: Frame,
    draws: &[f64],
    used: usize,
    epoch: u32,
    i: usize,
    centers: &mut [f32],
    counts: &mut [u32],
) -> Result<usize, Unclustered>
    requires splittable { Splittable f draws.now used centers.old counts.old }
    requires i_lt_centers { i < f.centers }
    ensures { let before = run_with (Ok used) centers.old counts.old in
        let after = run_with result centers.new counts.new in
        let t = split_task f draws.now in
        ((to : List ℕ) → after to ≡ fill_if_empty t epoch i (before to) used) }
{
    if counts[i] == 0 {
        fill_center(f, draws, used, epoch, i, centers, counts)
    } else {
        Ok(used)
    }
}

// Step 5: each empty centre, rising, is filled; the draws used so far are carried on.
pub fn split_center(
    f: Frame,
    draws: &[f64],
    used: usize,
    epoch: u32,
    centers: &mut [f32],
    counts: &mut [u32],
) -> Result<usize, Unclustered>
    requires { Splittable f draws.now used centers.old counts.old }
    ensures { let before = run_with (Ok used) centers.old counts.old in
        let after = run_with result centers.new counts.new in
        let t = split_task f draws.now in
        ((to : List ℕ) → Reached (after to) (split_to t epoch (before to) f.centers)) }
{
    let mut at = used;
    for i in 0..f.centers {
        at = fill_if_empty(f, draws, at, epoch, i, centers, counts)?;
    }
    Ok(at)
}
