// k-means' step 4: each centre becomes the average of its rows; and the test for 9, that centres are finite.
#![tactic(auto)]

ghost use Rattle.std.specs.Prelude.{◌≡◌, ◌+◌, ◌*◌, ◌≤◌, ◌<◌, length, get_or, set, IfSome, option_copied};
ghost use Rattle.lists.specs.Lists.{tab, fill, part, put_part, grid};
ghost use Rattle.metrics.specs.Distance.{zero32};
ghost use Rattle.kmeans_assign.specs.Task.{FramedGiven, row_given};
ghost use Rattle.kmeans_start.specs.StartInner.{mean_in};
ghost use Rattle.kmeans_average.specs.Average.{Assigned, averages_of, counts_of};
ghost use Rattle.kmeans_average.specs.Finite.{finite_center, lowest_broken};
ghost use Rattle.kmeans_average.specs.AverageInner.{added_to, center_sum, means_at};

use kmeans_assign::Given;

// The values of x are added to centre a.
#[tactic(auto, unfolding(lists::specs::Lists::put_part, lists::specs::Lists::part, crate::specs::AverageInner::added_to))]
fn add_to_center(centers: &mut [f32], a: usize, x: &[f32], residual: Option<&[f32]>)
    requires residual_len { IfSome residual (λ r. length r.now ≡ length x.now) }
    requires centers_len { a * length x.now + length x.now ≤ length centers.old }
    ensures { let v = x.now in
        centers.new ≡ added_to centers.old a (length v) (option_copied residual.entry) v }
{
    let b = a * x.len();
    let e = b + x.len();
    kmeans_start::add_into(&mut centers[b..e], x, residual);
}

// One more row of centre a.
fn count_one(counts: &mut [u32], a: usize)
    requires { (a < length counts.old) × (get_or counts.old a 0 < 100_001) }
    ensures { counts.new ≡ set counts.old a (get_or counts.old a 0 + 1) }
{
    counts[a] += 1;
}

// Each row is added to its centre and counted there.
fn accumulate(g: Given<'_>, assigned: &[u32], centers: &mut [f32], counts: &mut [u32])
    requires framed { FramedGiven g }
    requires assigned { Assigned g.frame assigned.now }
    requires centers_value { let f = g.frame in
        (centers.old ≡ fill zero32 (f.centers * f.w)) × (counts.old ≡ fill 0 f.centers) }
    ensures { let t = row_given g.entry in
        let to = assigned.now in
        (centers.new ≡ grid (center_sum t to t.n) t.centers t.w) × (counts.new ≡ counts_of t to) }
{
    for (k, to) in assigned.iter().enumerate() {
        let a = lists::wide(*to);
        add_to_center(centers, a, g.row_range(k), g.residual);
        count_one(counts, a);
    }
}

// The sums of centre i become means.
#[tactic(auto, unfolding(lists::specs::Lists::put_part, lists::specs::Lists::part))]
fn mean_center(centers: &mut [f32], i: usize, w: usize, rows: u32)
    requires { i * w + w ≤ length centers.old }
    ensures { let cs = centers.old in
        centers.new ≡ put_part cs (i * w) w (tab (mean_in (part cs (i * w) w) rows) w) }
{
    let a = i * w;
    let e = a + w;
    kmeans_start::mean_into(&mut centers[a..e], rows);
}

// The sums of every centre become means.
fn mean_centers(centers: &mut [f32], w: usize, counts: &[u32])
    requires { length centers.old ≡ length counts.now * w }
    ensures { let n = length counts.now in
        centers.new ≡ grid (means_at centers.old counts.now w) n w }
{
    for (i, rows) in counts.iter().enumerate() {
        mean_center(centers, i, w, *rows);
    }
}

// Step 4: each centre becomes the mean of its rows, an empty one all zero; and how many rows each has.
pub fn update_center(g: Given<'_>, assigned: &[u32], centers: &mut [f32], counts: &mut [u32])
    requires framed { FramedGiven g }
    requires assigned { Assigned g.frame assigned.now }
    requires centers_len { (length centers.old ≡ g.frame.centers * g.frame.w) × (length counts.old ≡ g.frame.centers) }
    ensures { let t = row_given g.entry in
        let to = assigned.now in
        (centers.new ≡ averages_of t to) × (counts.new ≡ counts_of t to) }
{
    lists::fill(centers, 0.0);
    lists::fill(counts, 0);
    accumulate(g, assigned, centers, counts);
    mean_centers(centers, g.frame.w, counts);
}

// Whether all of centre i is finite.
pub fn finite_center(centers: &[f32], w: usize, i: usize) -> bool
    requires { i * w + w ≤ length centers.now }
    ensures { result ≡ finite_center centers.now w i }
{
    let c = lists::stretch(centers, i, w);
    metrics::all_finite(c)
}

// The lowest of n centres that is not finite, if there is one: the test for 9.
pub fn lowest_broken(centers: &[f32], w: usize, n: usize) -> Option<usize>
    requires { length centers.now ≡ n * w }
    ensures { result ≡ lowest_broken centers.now w n }
{
    (0..n).find(|i| !finite_center(centers, w, *i))
}
