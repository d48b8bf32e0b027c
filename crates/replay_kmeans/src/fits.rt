// Tests at run time of everything that k-means asks of what it goes over and of the slices lent beside it.
ghost use Rattle.std.specs.Prelude.{◌≡◌, true, ℕ, ◌+◌, ◌*◌, ◌≤◌, ◌<◌, length, IfSome, option_copied};
ghost use Rattle.lists.specs.Lists.{member_of};
ghost use Rattle.kmeans_assign.specs.Task.{FramedGiven};
ghost use Rattle.kmeans_split.specs.Split.{NotNegative};
ghost use Rattle.replay_kmeans.specs.Fits.{Bounded, Long};

use kmeans_assign::{Frame, Given};

// Whether the frame's numbers are within document 01's bounds.
fn in_bounds(f: Frame) -> bool
    ensures { result ≡ true → Bounded f }
{
    0 < f.n
        && f.n <= 100_001
        && 0 < f.centers
        && f.centers <= 1024
        && f.d <= 256
        && f.w <= f.d
        && f.begin <= f.d - f.w
}

// Whether the list, if there is one, has as many rows as the frame says.
fn is_listed(n: usize, members: Option<&[u32]>) -> bool
    ensures { result ≡ true → IfSome (option_copied members.entry) (λ m. n ≤ length m) }
{
    match members {
        Some(list) => n <= list.len(),
        None => true,
    }
}

// Whether the residual, if there is one, is as wide as the range.
fn is_wide(w: usize, residual: Option<&[f32]>) -> bool
    ensures { result ≡ true → IfSome (option_copied residual.entry) (λ r. length r ≡ w) }
{
    match residual {
        Some(taken) => taken.len() == w,
        None => true,
    }
}

// Whether a row is among the rows.
fn is_held(d: usize, rows: &[f32], m: usize) -> bool
    requires { d ≤ 256 }
    ensures { result ≡ true → m * d + d ≤ length rows.now }
{
    m < 4_294_967_296 && m * d + d <= rows.len()
}

// Whether every row of the frame is among the rows.
fn are_held(g: Given<'_>) -> bool
    requires bounded { Bounded g.frame }
    requires n_in_bounds { IfSome (option_copied g.members) (λ m. g.frame.n ≤ length m) }
    ensures { let at : ℕ → ℕ = member_of (option_copied g.entry.members) in
        (result ≡ true → (k : ℕ) → k < g.entry.frame.n → at k * g.entry.frame.d + g.entry.frame.d ≤ length g.entry.rows.now) }
{
    for k in 0..g.frame.n {
        let m = lists::row_number(g.members, k);
        if !is_held(g.frame.d, g.rows, m) {
            return false;
        }
    }
    true
}

// Whether the slices hold what the frame speaks of.
pub(crate) fn framed(g: Given<'_>) -> bool
    ensures { result ≡ true → FramedGiven g.entry }
{
    in_bounds(g.frame)
        && is_wide(g.frame.w, g.residual)
        && is_listed(g.frame.n, g.members)
        && are_held(g)
}

// Whether no draw is below 0.
pub(crate) fn drawn(draws: &[f64]) -> bool
    ensures { result ≡ true → NotNegative draws.now }
{
    draws.iter().all(|x| 0.0 <= *x)
}

// Whether the runs to be written are as long as the frame says.
pub(crate) fn long(f: Frame, centers: &[f32], assigned: &[u32], counts: &[u32]) -> bool
    ensures { result ≡ true → Long f centers.now assigned.now counts.now }
{
    f.centers <= 1024
        && f.w <= 256
        && centers.len() == f.centers * f.w
        && assigned.len() == f.n
        && counts.len() == f.centers
}
