// The squared Euclidean distance of one range, each operation rounding once, and the finite test.
#![tactic(auto)]

ghost use Rattle.std.specs.Prelude.{◌≡◌, ◌<◌, length, IfSome, option_copied};
ghost use Rattle.std.specs.Float.Ieee.Scale.{finite};
ghost use Rattle.lists.specs.Tests.{every};
ghost use Rattle.metrics.specs.Distance.{value_of, residual_at, value_in, coordinate_in, finite_in, squared, worked, distance};

// Whether x is a number: an infinity or a NaN less itself is no zero.
pub fn is_finite(x: f32) -> bool
    ensures { result ≡ finite x }
{
    x - x == 0.0
}

// Whether every coordinate of a slice is finite. The loop does not stop at one that is not, so that it goes over several at a time.
pub fn all_finite(s: &[f32]) -> bool
    ensures { result ≡ every (finite_in s.now) (length s.now) }
{
    let mut all = true;
    for x in s {
        all &= is_finite(*x);
    }
    all
}

// A coordinate's value: x, or x less the residual.
#[tactic(auto, unfolding(crate::specs::Distance::value_of))]
pub fn value(x: f32, residual: Option<f32>) -> f32
    ensures { result ≡ value_of residual x }
{
    match residual {
        Some(r) => x - r,
        None => x,
    }
}

// The residual at coordinate j.
pub fn residual_at(residual: Option<&[f32]>, j: usize) -> Option<f32>
    requires { IfSome residual (λ r. j < length r.now) }
    ensures { result ≡ residual_at (option_copied residual.entry) j }
{
    residual.map(|r| r[j])
}

// A sum as a worked distance: the sum, or none where it is not finite.
pub fn mark(sum: f32) -> Option<f32>
    ensures { result ≡ worked sum }
{
    if is_finite(sum) { Some(sum) } else { None }
}

// The sum of the squares of x less a centre, from +0.0, in coordinate order.
fn squares(x: &[f32], center: &[f32]) -> f32
    requires { length x.now ≡ length center.now }
    ensures { result ≡ squared (value_in None x.now) (coordinate_in center.now) (length center.now) }
{
    let mut sum: f32 = 0.0;
    // By index: two slices are read beside each other.
    for j in 0..center.len() {
        let d = x[j] - center[j];
        sum += d * d;
    }
    sum
}

// The same of x less a residual.
fn squares_less(x: &[f32], residual: &[f32], center: &[f32]) -> f32
    requires { (length x.now ≡ length center.now) × (length residual.now ≡ length center.now) }
    ensures { result ≡ squared (value_in (Some residual.now) x.now) (coordinate_in center.now) (length center.now) }
{
    let mut total: f32 = 0.0;
    // By index: three slices are read beside each other.
    for j in 0..center.len() {
        let less = x[j] - residual[j] - center[j];
        total += less * less;
    }
    total
}

// The distance of the values of x to a centre: the sum of the squares from +0.0, in coordinate order. Whether there is a residual is
// asked once, and not at each coordinate.
pub fn distance(x: &[f32], residual: Option<&[f32]>, center: &[f32]) -> Option<f32>
    requires { (length x.now ≡ length center.now) × IfSome residual (λ r. length r.now ≡ length center.now) }
    ensures { result ≡ distance (value_in (option_copied residual.entry) x.now) (coordinate_in center.now) (length center.now) }
{
    match residual {
        Some(r) => mark(squares_less(x, r, center)),
        None => mark(squares(x, center)),
    }
}
