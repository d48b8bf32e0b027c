// How many of n elements a buffer holds: n, or its length if it is shorter. It answers with the facts that lending so many asks for.
ghost use Rattle.lending.specs.Filled.{Held};

// As many of n elements as s has.
pub fn held<T>(s: &[T], n: usize) -> usize
    ensures { Held n s.now result }
{
    s.len().min(n)
}
