// Flat lent buffers: a part of one, and fills. Vectors of vectors are flat here, and a row, a centre or a code is a part at an offset.
#![tactic(auto)]

ghost use Rattle.std.specs.Prelude.{◌≡◌, ◌+◌, ◌*◌, ◌≤◌, ◌<◌, min, length, IfSome, option_copied};
ghost use Rattle.lists.specs.Lists.{Part, part_if, fill, member_of};

// The w elements from place a on.
pub fn part(s: &[f32], a: usize, w: usize) -> &[f32]
    requires { a + w ≤ length s.now }
    ensures { Part s.now a w result.now }
{
    let e = a + w;
    &s[a..e]
}

// Stretch i of a buffer that holds one stretch of width w after another.
pub fn stretch(s: &[f32], i: usize, w: usize) -> &[f32]
    requires { i * w + w ≤ length s.now }
    ensures { Part s.now (i * w) w result.now }
{
    part(s, i * w, w)
}

// The w elements of a slice from place a on, if there is a slice.
pub fn part_if<'a>(s: Option<&'a [f32]>, a: usize, w: usize) -> Option<&'a [f32]>
    requires { IfSome s (λ s. a + w ≤ length s.now) }
    ensures is { option_copied result ≡ part_if (option_copied s.entry) a w }
    ensures long { IfSome result (λ r. length r.now ≡ w) }
{
    match s {
        Some(s) => Some(part(s, a, w)),
        None => None,
    }
}

// A row number as an index.
pub fn wide(x: u32) -> usize
    ensures { result ≡ x }
{
    x as usize
}

// A code as an index. Beside `wide`, since no trait makes both a u8 and a u32 a usize, and each is one cast.
pub fn wide_byte(x: u8) -> usize
    ensures { result ≡ x }
{
    x as usize
}

// The lesser of two numbers.
pub fn least(a: usize, b: usize) -> usize
    ensures { result ≡ min a b }
{
    a.min(b)
}

// The row number of the k-th row: from the list, or k itself where there is none.
pub fn row_number(members: Option<&[u32]>, k: usize) -> usize
    requires { IfSome members (λ m. k < length m.now) }
    ensures { result ≡ member_of (option_copied members.entry) k }
{
    match members {
        Some(list) => wide(list[k]),
        None => k,
    }
}

// Every element becomes v. Not by the slice's own `fill`, which clones v and so asks what a clone is; and by number, so that an edit can
// leave out the first and nothing else.
pub fn fill<T: Copy>(s: &mut [T], v: T)
    ensures { s.new ≡ fill v (length s.old) }
{
    for i in 0..s.len() {
        s[i] = v;
    }
}
