// A list, and one value for every place past its end: written into a buffer, and compared with one bit for bit.
ghost use Rattle.std.specs.Prelude.{◌≡◌, ℕ, length};
ghost use Rattle.std.specs.Float.{nan};
ghost use Rattle.lists.specs.Lists.{tab};
ghost use Rattle.lists.specs.Tests.{every};
ghost use Rattle.lending.specs.Listed.{bits_of, in_list, same_at, is_at};

// A float's bits; what is not finite has a pattern that no finite one has.
pub fn bits(x: f32) -> u32
    ensures { result ≡ bits_of x }
{
    if metrics::is_finite(x) {
        f32::to_bits(x)
    } else {
        0xffff_ffff
    }
}

// What is compared bit for bit: a value that one word stands for. `none` is what a clause reads past the end of a list.
pub trait Word: Copy {
    ghost word_of: { Self → ℕ };

    ghost none: { Self };

    // The word.
    fn word(self) -> u32
        ensures { result ≡ word_of self };
}

impl Word for f32 {
    ghost word_of = { bits_of };

    ghost none = { nan };

    fn word(self) -> u32 {
        bits(self)
    }
}

impl Word for u32 {
    ghost word_of = { λ x. x };

    ghost none = { 0 };

    fn word(self) -> u32 {
        self
    }
}

impl Word for u8 {
    ghost word_of = { λ x. x };

    ghost none = { 0 };

    fn word(self) -> u32 {
        u32::from(self)
    }
}

// Value j of a list.
fn value_in<T: Copy>(list: &[T], rest: T, j: usize) -> T
    ensures { result ≡ in_list list.now rest j }
{
    list.get(j).copied().unwrap_or(rest)
}

// The values of a list.
pub fn write<T: Copy>(list: &[T], rest: T, out: &mut [T])
    ensures { out.new ≡ tab (in_list list.now rest) (length out.old) }
{
    for (j, x) in out.iter_mut().enumerate() {
        *x = value_in(list, rest, j);
    }
}

// Whether values are a list's, bit for bit.
pub fn same<T: Word>(s: &[T], list: &[T], rest: T) -> bool
    ensures { result ≡ every (same_at T.word_of T.none s.now list.now rest) (length s.now) }
{
    s.iter()
        .enumerate()
        .all(|(j, x)| x.word() == value_in(list, rest, j).word())
}

// Whether every value is one, bit for bit.
pub fn are<T: Word>(s: &[T], v: T) -> bool
    ensures { result ≡ every (is_at T.word_of T.none s.now v) (length s.now) }
{
    s.iter().all(|x| x.word() == v.word())
}
