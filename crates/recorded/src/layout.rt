// The layout of a recorded file. Every number is little-endian and starts at a multiple of 4, so a file and the body of a case are
// read word by word, and places count in words; what would stand past the end is read as 0.
ghost use Rattle.std.specs.Prelude.{◌≡◌, ℕ, List, ◌*◌, ◌≤◌, length, get_or, drop};
ghost use Rattle.lists.specs.Lists.{tab};
ghost use Rattle.recorded.specs.Layout.{word_at, place_after, product_of, padded_words, float_of, double_of, draw_of};
ghost use Rattle.recorded.specs.Layout.{number_at, float_at, draw_at, ends_at, cases_of, is_case, next_of, body_of, after_search};

use lending::parts;

// Byte k, or 0 past the end.
fn byte(s: &[u8], k: usize) -> u8
    ensures { result ≡ get_or s.now k 0 }
{
    s.get(k).copied().unwrap_or(0)
}

// Word k of those that begin before the end: four bytes, the lowest first.
#[tactic(auto, unfolding(crate::specs::Layout::word_at))]
fn held_word(s: &[u8], k: usize) -> u32
    requires { k * 4 ≤ length s.now }
    ensures { result ≡ word_at s.now k }
{
    let a = k * 4;
    u32::from_le_bytes([byte(s, a), byte(s, a + 1), byte(s, a + 2), byte(s, a + 3)])
}

// Word k of some bytes.
pub fn word(s: &[u8], k: usize) -> u32
    ensures { result ≡ word_at s.now k }
{
    if k <= s.len() / 4 { held_word(s, k) } else { 0 }
}

// Word k of some bytes, as a count.
pub fn count(s: &[u8], k: usize) -> usize
    ensures { result ≡ word_at s.now k }
{
    lists::wide(word(s, k))
}

// A place past the end of every file.
const FAR: usize = 1_099_511_627_776;

// The place some words on.
#[tactic(auto, unfolding(crate::specs::Layout::place_after))]
pub fn after(at: usize, words: usize) -> usize
    ensures { result ≡ place_after at words }
{
    if at < FAR && words < FAR {
        at + words
    } else {
        FAR
    }
}

// A product of two counts; no recorded count comes near the bound.
#[tactic(auto, unfolding(crate::specs::Layout::product_of))]
pub fn product(a: usize, b: usize) -> usize
    ensures { result ≡ product_of a b }
{
    if a < 65_536 && b < 65_536 { a * b } else { FAR }
}

// The words of n bytes, the last of which may be filled up with zero bytes.
pub fn padded(n: usize) -> usize
    ensures { result ≡ padded_words n }
{
    n / 4 + (n % 4 + 3) / 4
}

// The float that a word holds. Every float of a file is finite; another pattern is read as 0.
#[tactic(auto, unfolding(crate::specs::Layout::float_of))]
fn float(bits: u32) -> f32
    ensures { result ≡ float_of bits }
{
    if bits % 0x8000_0000 / 0x0080_0000 == 255 {
        0.0
    } else {
        f32::from_bits(bits)
    }
}

// The double of a pattern, in the same way.
#[tactic(auto, unfolding(crate::specs::Layout::double_of))]
fn double(bits: u64) -> f64
    ensures { result ≡ double_of bits }
{
    if bits % 0x8000_0000_0000_0000 / 0x0010_0000_0000_0000 == 2047 {
        0.0
    } else {
        f64::from_bits(bits)
    }
}

// The draw that two words hold.
fn draw(low: u32, high: u32) -> f64
    ensures { result ≡ draw_of low high }
{
    double(u64::from(high) * 0x1_0000_0000 + u64::from(low))
}

// The j-th number from a place on.
pub fn number_at(s: &[u8], at: usize, j: usize) -> u32
    ensures { result ≡ number_at s.now at j }
{
    word(s, after(at, j))
}

// What stands in a file one after the other: a number or a float in a word, a draw in two.
pub trait Recorded: Copy {
    ghost value_at: { List ℕ → ℕ → ℕ → Self };

    // The j-th from a place on.
    fn value_at(s: &[u8], at: usize, j: usize) -> Self
        ensures { result ≡ value_at s.now at j };
}

impl Recorded for u32 {
    ghost value_at = { number_at };

    fn value_at(s: &[u8], at: usize, j: usize) -> u32 {
        number_at(s, at, j)
    }
}

impl Recorded for f32 {
    ghost value_at = { float_at };

    fn value_at(s: &[u8], at: usize, j: usize) -> f32 {
        float(number_at(s, at, j))
    }
}

impl Recorded for f64 {
    ghost value_at = { draw_at };

    fn value_at(s: &[u8], at: usize, j: usize) -> f64 {
        let k = after(at, j);
        draw(number_at(s, k, j), number_at(s, after(k, 1), j))
    }
}

// Numbers, floats or draws, from a place on.
pub fn load<T: Recorded>(s: &[u8], at: usize, out: &mut [T])
    ensures { out.new ≡ tab (T.value_at s.now at) (length out.old) }
{
    for (j, x) in out.iter_mut().enumerate() {
        *x = T::value_at(s, at, j);
    }
}

// Whether a file, or a body, ends at a place.
pub fn ends(s: &[u8], at: usize) -> bool
    ensures { result ≡ ends_at s.now at }
{
    s.len() / 4 == at && s.len() % 4 == 0
}

// The place of a file's first case.
pub const FIRST: usize = 4;

// The number of cases that the file's own head says, after its name and version; 0 for another file, and for more than it could hold.
#[tactic(auto, unfolding(crate::specs::Layout::cases_of))]
pub fn cases(file: &[u8]) -> usize
    ensures { result ≡ cases_of file.now }
{
    let n = count(file, 3);
    let is_named = word(file, 0) == 0x6772_6562 && word(file, 1) == 0x6b73_6f72;
    if is_named && word(file, 2) == 1 && n < file.len() {
        n
    } else {
        0
    }
}

// The place after the case that begins at a place.
pub fn next(file: &[u8], at: usize) -> usize
    ensures { result ≡ next_of file.now at }
{
    let bytes = count(file, after(at, 1));
    after(after(at, 2), bytes / 4)
}

// The place after the search that is recorded at a place: k, a query of d coordinates, found, scored, k rows and k sums.
pub fn after_search(body: &[u8], at: usize, d: usize) -> usize
    ensures { result ≡ after_search body.now at d }
{
    let k = count(body, at);
    after(after(after(at, 3), d), after(k, k))
}

// Whether the file has a case of a kind at a place, from its head to its end.
fn is_case(file: &[u8], at: usize, kind: u32) -> bool
    ensures { result ≡ is_case file.now at kind }
{
    word(file, at) == kind && count(file, after(at, 1)) % 4 == 0 && next(file, at) <= file.len() / 4
}

// The body of the case of a kind at a place; nothing where the file has no such case there.
#[tactic(auto, unfolding(crate::specs::Layout::body_of))]
pub fn body(file: &[u8], at: usize, kind: u32) -> &[u8]
    ensures { result.now ≡ body_of file.now at kind }
{
    if !is_case(file, at, kind) {
        return &[];
    }
    let rest = from(file, after(at, 2));
    parts::first(rest, count(file, after(at, 1)))
}

// What stands from a place on.
fn from(file: &[u8], at: usize) -> &[u8]
    ensures { result.now ≡ drop (at * 4) file.now }
{
    file.get(at.saturating_mul(4)..).unwrap_or(&[])
}
