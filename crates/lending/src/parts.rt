// The first n elements of a buffer, or all of a shorter one.
ghost use Rattle.std.specs.Prelude.{◌≡◌, take};

// The first n elements.
pub fn first<T>(s: &[T], n: usize) -> &[T]
    ensures { result.now ≡ take n s.now }
{
    s.get(..n).unwrap_or(s)
}
