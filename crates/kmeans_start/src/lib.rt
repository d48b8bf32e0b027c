// k-means' step 1: every centre is the mean of the rows, moved by one up or down.
#![tactic(auto)]

ghost use Rattle.std.specs.Prelude.{◌≡◌, ◌+◌, ◌*◌, ◌≤◌, length, if◌then◌else◌, IfSome, option_copied};
ghost use Rattle.std.specs.Float.Ieee.{add, sub};
ghost use Rattle.std.specs.Float.{binary32};
ghost use Rattle.lists.specs.Lists.{tab, fill, put_part, grid};
ghost use Rattle.metrics.specs.Distance.{zero32};
ghost use Rattle.kmeans_assign.specs.Task.{FramedGiven, row_given};
ghost use Rattle.kmeans_start.specs.Start.{started, raised, one32, mean_of};
ghost use Rattle.kmeans_start.specs.StartInner.{added_at, column_sum, mean_in, means_of, start_from};

use kmeans_assign::Given;

// The values of x are added to the sums. By the sums' places, since the residual may not be there.
pub fn add_into(sums: &mut [f32], x: &[f32], residual: Option<&[f32]>)
    requires x_len { length x.now ≡ length sums.old }
    requires residual_len { IfSome residual (λ r. length r.now ≡ length sums.old) }
    ensures { let s = sums.old in
        sums.new ≡ tab (added_at s (option_copied residual.entry) x.now) (length s) }
{
    for (j, sum) in sums.iter_mut().enumerate() {
        *sum += metrics::value(x[j], metrics::residual_at(residual, j));
    }
}

// The sums of all rows, in row order from +0.0.
fn sum_rows(g: Given<'_>, sums: &mut [f32])
    requires framed { FramedGiven g }
    requires sums_value { sums.old ≡ fill zero32 g.frame.w }
    ensures { let t = row_given g.entry in
        sums.new ≡ tab (column_sum t t.n) t.w }
{
    for k in 0..g.frame.n {
        add_into(sums, g.row_range(k), g.residual);
    }
}

// The mean of a number of rows; that of none is +0.0.
#[tactic(auto, unfolding(crate::specs::Start::mean_of))]
fn mean(sum: f32, rows: u32) -> f32
    ensures { result ≡ mean_of rows sum }
{
    if rows == 0 {
        0.0
    } else {
        sum / std::num::nearest_u32_to_f32(rows)
    }
}

// Sums become means, in place.
pub fn mean_into(sums: &mut [f32], rows: u32)
    ensures { sums.new ≡ tab (mean_in sums.old rows) (length sums.old) }
{
    for sum in sums {
        *sum = mean(*sum, rows);
    }
}

// mean+1 where centre i is odd and coordinate j is divisible by 64, else mean−1.
fn shifted(mean: f32, i: usize, j: usize) -> f32
    ensures { result ≡ (if raised i j then add binary32 mean one32 else sub binary32 mean one32) }
{
    if (i % 2 == 1) & (j % 64 == 0) {
        mean + 1.0
    } else {
        mean - 1.0
    }
}

// One centre of the start, from the mean. By place, which the shift goes by too.
fn start_into(center: &mut [f32], mean: &[f32], i: usize)
    requires { length mean.now ≡ length center.old }
    ensures { center.new ≡ tab (start_from mean.now i) (length center.old) }
{
    for (j, coordinate) in center.iter_mut().enumerate() {
        *coordinate = shifted(mean[j], i, j);
    }
}

// Centre i of the start, in its stretch of the centres.
#[tactic(auto, unfolding(lists::specs::Lists::put_part))]
fn start_center(centers: &mut [f32], mean: &[f32], i: usize)
    requires { i * length mean.now + length mean.now ≤ length centers.old }
    ensures { let m = mean.now in
        let w = length m in
        centers.new ≡ put_part centers.old (i * w) w (tab (start_from m i) w) }
{
    let a = i * mean.len();
    let e = a + mean.len();
    start_into(&mut centers[a..e], mean, i);
}

// All centres of the start, from the mean. By number: a stretch may have no coordinates, and chunks may not.
fn start_centers(centers: &mut [f32], mean: &[f32], n: usize)
    requires { length centers.old ≡ n * length mean.now }
    ensures { centers.new ≡ grid (start_from mean.now) n (length mean.now) }
{
    for i in 0..n {
        start_center(centers, mean, i);
    }
}

// The mean of the rows, and from it all centres of the start.
fn start_from(g: Given<'_>, mean: &mut [f32], centers: &mut [f32])
    requires framed { FramedGiven g }
    requires mean_value { (mean.old ≡ fill zero32 g.frame.w) × (length centers.old ≡ g.frame.centers * g.frame.w) }
    ensures { let t = row_given g.entry in
        (mean.new ≡ means_of t) × (centers.new ≡ started t) }
{
    sum_rows(g, mean);
    mean_into(mean, g.frame.n as u32);
    start_centers(centers, mean, g.frame.centers);
}

// Step 1: every centre is the mean of the rows, moved by one up or down.
pub fn init_center(g: Given<'_>, centers: &mut [f32])
    requires framed { FramedGiven g }
    requires centers_len { length centers.old ≡ g.frame.centers * g.frame.w }
    ensures { centers.new ≡ started (row_given g.entry) }
{
    let mut mean = [0.0f32; 256];
    let w = g.frame.w;
    start_from(g, &mut mean[..w], centers);
}
