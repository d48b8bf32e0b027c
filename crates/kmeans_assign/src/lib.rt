// What one k-means is given, and its step 3: the centre of each row, over all rows or over a list of them.
#![tactic(auto)]

ghost use Rattle.std.specs.Prelude.{◌≡◌, ◌+◌, ◌*◌, ◌≤◌, ◌<◌, length, IfSome, option_copied};
ghost use Rattle.lists.specs.Lists.{Part};
ghost use Rattle.metrics.specs.Distance.{value_in};
ghost use Rattle.kmeans_assign.specs.Task.{FramedGiven, RowHeld, range_begin, row_given};
ghost use Rattle.kmeans_assign.specs.Assign.{less_of, distance_to, chosen, assigned_of};

// The numbers of one k-means: w coordinates from begin on, of n rows of d coordinates; and how many centres.
#[derive(Clone, Copy, Debug, PartialEq, Eq)]
pub struct Frame {
    pub d: usize,
    pub begin: usize,
    pub w: usize,
    pub n: usize,
    pub centers: usize,
}

// What one k-means goes over: the rows that a list names, or all of them, and on its range the residual that is taken off each, if any.
#[derive(Clone, Copy, Debug, PartialEq)]
pub struct Given<'a> {
    pub frame: Frame,
    pub rows: &'a [f32],
    pub members: Option<&'a [u32]>,
    pub residual: Option<&'a [f32]>,
}

impl<'a> Given<'a> {
    // The range of the k-th row.
    pub fn row_range(self, k: usize) -> &'a [f32]
        requires { RowHeld self k }
        ensures { Part self.entry.rows.now (range_begin self.entry k) self.entry.frame.w result.now }
    {
        let f = self.frame;
        let m = lists::row_number(self.members, k);
        lists::part(self.rows, m * f.d + f.begin, f.w)
    }
}

// A mark is never less than another, and every finite distance is less than it. (The order of an `Option` puts `None` first.)
fn less(a: Option<f32>, b: Option<f32>) -> bool
    ensures { result ≡ less_of a b }
{
    match (a, b) {
        (Some(x), Some(y)) => x < y,
        (Some(_), None) => true,
        (None, _) => false,
    }
}

// The distance of the values of x to centre i.
fn distance_to(x: &[f32], residual: Option<&[f32]>, centers: &[f32], i: usize) -> Option<f32>
    requires residual_len { IfSome residual (λ r. length r.now ≡ length x.now) }
    requires centers_len { i * length x.now + length x.now ≤ length centers.now }
    ensures { let values = value_in (option_copied residual.entry) x.now in
        result ≡ distance_to values centers.now (length x.now) i }
{
    let c = lists::stretch(centers, i, x.len());
    metrics::distance(x, residual, c)
}

// The centre, of n, that the values of x are assigned to: from centre 0, a later one replaces the best only if strictly nearer.
pub fn nearest(x: &[f32], residual: Option<&[f32]>, centers: &[f32], n: usize) -> usize
    requires residual_len { IfSome residual (λ r. length r.now ≡ length x.now) }
    requires centers_len { (length centers.now ≡ n * length x.now) × (0 < n) }
    ensures { let values = value_in (option_copied residual.entry) x.now in
        result ≡ chosen values centers.now (length x.now) n }
{
    let mut best = 0;
    let mut least = distance_to(x, residual, centers, 0);
    // By number: a centre may have no coordinates, and chunks may not.
    for i in 1..n {
        let rival = distance_to(x, residual, centers, i);
        if less(rival, least) {
            best = i;
            least = rival;
        }
    }
    best
}

// Step 3: the centre of each row.
pub fn search_data(g: Given<'_>, centers: &[f32], assigned: &mut [u32])
    requires framed { FramedGiven g }
    requires centers_len { (length centers.now ≡ g.frame.centers * g.frame.w) × (length assigned.old ≡ g.frame.n) }
    ensures { assigned.new ≡ assigned_of (row_given g.entry) centers.now }
{
    for (k, center) in assigned.iter_mut().enumerate() {
        let x = g.row_range(k);
        *center = nearest(x, g.residual, centers, g.frame.centers) as u32;
    }
}
