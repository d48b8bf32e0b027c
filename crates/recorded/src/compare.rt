// Comparing bit for bit: what our code wrote beside the words of a recorded answer.
ghost use Rattle.std.specs.Prelude.{◌≡◌, length};
ghost use Rattle.lists.specs.Tests.{every};
ghost use Rattle.recorded.specs.Layout.{padded_words};
ghost use Rattle.recorded.specs.Compare.{as_recorded, as_word, is_result, is_found};

use crate::layout::{after, count, number_at, padded, word};
use answers::{Found, Refusal};
use lending::listed;
use lending::listed::Word;

// Whether floats have the bits of the words from a place on, and numbers are these words.
pub fn same<T: Word>(body: &[u8], at: usize, s: &[T]) -> bool
    ensures { result ≡ every (as_recorded T.word_of T.none body.now at s.now) (length s.now) }
{
    s.iter()
        .enumerate()
        .all(|(j, x)| x.word() == number_at(body, at, j))
}

// Whether bytes, and zero bytes up to a multiple of 4, are the words from a place on.
pub fn bytes(body: &[u8], at: usize, s: &[u8]) -> bool
    ensures { result ≡ every (as_word body.now at s.now) (padded_words (length s.now)) }
{
    (0..padded(s.len())).all(|k| word(s, k) == number_at(body, at, k))
}

// Whether found, scored, row numbers and sums are those recorded at a place, and the table is zero.
#[tactic(auto, unfolding(crate::specs::Compare::is_result))]
fn results(body: &[u8], at: usize, f: Found, rows: &[u32], sums: &[f32], table: &[f32]) -> bool
    ensures { result ≡ is_result body.now at f rows.now sums.now table.now }
{
    let first = after(at, 2);
    f.found == count(body, at)
        && f.scored == count(body, after(at, 1))
        && same(body, first, rows)
        && same(body, after(first, rows.len()), sums)
        && listed::are(table, 0.0)
}

// Whether a search ended with the answer that is recorded at a place.
pub fn found(
    body: &[u8],
    at: usize,
    a: Result<Found, Refusal>,
    rows: &[u32],
    sums: &[f32],
    table: &[f32],
) -> bool
    ensures { result ≡ is_found body.now at a rows.now sums.now table.now }
{
    match a {
        Ok(f) => results(body, at, f, rows, sums, table),
        Err(_) => false,
    }
}
