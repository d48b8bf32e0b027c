// Step 5 of a search in one cell: the sums of picked rows by the cell's table, four at a time.
#![tactic(auto)]

ghost use Rattle.std.specs.Prelude.{◌≡◌, ◌<◌, map, length};
ghost use Rattle.neighbor.specs.Neighbor.{row_of};
ghost use Rattle.cell_sums.specs.SumsInner.{term_by, sum_by, CodedBy, four_of, AllCoded, with_sums, worked_all, Summed};

use answers::Refusal;
use neighbor::Candidate;

// What sums are worked from: n_sub codes of each row, by row number, and a table of n_sub stretches of `centers` entries.
#[derive(Clone, Copy, Debug, PartialEq)]
pub struct Sums<'a> {
    pub codes: &'a [u8],
    pub nsub: usize,
    pub centers: usize,
    pub table: &'a [f32],
}

impl Sums<'_> {
    // The entry of the table for sub-space s of row m.
    fn entry(self, m: usize, s: usize) -> f32
        requires { CodedBy self m × (s < self.nsub) }
        ensures { result ≡ term_by self.entry m s }
    {
        let code = lists::wide_byte(self.codes[m * self.nsub + s]);
        self.table[s * self.centers + code]
    }

    // The sum of row m: its entries of the table added from +0.0 in sub-space order.
    fn row_sum(self, m: usize) -> f32
        requires { CodedBy self m }
        ensures { result ≡ sum_by self.entry m }
    {
        let mut sum: f32 = 0.0;
        for s in 0..self.nsub {
            sum += self.entry(m, s);
        }
        sum
    }

    // The sums of four rows, by four sums that do not wait for each other; the rows stand at the same places.
    fn four_sums(self, m: [usize; 4]) -> [f32; 4]
        requires { AllCoded self m }
        ensures { result ≡ four_of (sum_by self.entry) m }
    {
        let mut sums = [0.0; 4];
        for s in 0..self.nsub {
            for (k, sum) in sums.iter_mut().enumerate() {
                *sum += self.entry(m[k], s);
            }
        }
        sums
    }
}

// The sums of four picked rows are stored with them, each by its place.
fn store_four(t: Sums<'_>, picked: &mut [Candidate])
    requires coded { AllCoded t (map row_of picked.old) }
    requires four { length picked.old ≡ 4 }
    ensures { picked.new ≡ with_sums (sum_by t.entry) picked.old }
{
    let m = [
        lists::wide(picked[0].row),
        lists::wide(picked[1].row),
        lists::wide(picked[2].row),
        lists::wide(picked[3].row),
    ];
    let sums = t.four_sums(m);
    for (k, c) in picked.iter_mut().enumerate() {
        c.sum = sums[k];
    }
}

// The sums of picked rows are stored with them, one after the other.
fn store_each(t: Sums<'_>, picked: &mut [Candidate])
    requires { AllCoded t (map row_of picked.old) }
    ensures { picked.new ≡ with_sums (sum_by t.entry) picked.old }
{
    for c in picked {
        c.sum = t.row_sum(lists::wide(c.row));
    }
}

// The sums of picked rows are stored with them: four at a time, then what is left.
fn store_sums(t: Sums<'_>, picked: &mut [Candidate])
    requires { AllCoded t (map row_of picked.old) }
    ensures { picked.new ≡ with_sums (sum_by t.entry) picked.old }
{
    let mut j: usize = 0;
    // By place: what `chunks_mut` lends would tell nothing of the elements afterwards.
    while 4 <= picked.len() - j {
        let e = j + 4;
        store_four(t, &mut picked[j..e]);
        j = e;
    }
    store_each(t, &mut picked[j..]);
}

// The sums of picked rows, taken together as one worked distance: the mark, if one of them is not finite. Document 01 has summing take
// one apart by `let .. else`. The loop does not stop at a mark, so that it goes over several at a time.
fn mark_all(picked: &[Candidate]) -> Option<f32>
    ensures { result ≡ worked_all picked.now }
{
    let mut all = true;
    for c in picked {
        all &= metrics::is_finite(c.sum);
    }
    if all { Some(0.0) } else { None }
}

// Step 5: the sums of picked rows are stored with them. Where one is not finite, they are refused.
pub fn sum_picked(t: Sums<'_>, picked: &mut [Candidate]) -> Result<(), Refusal>
    requires { AllCoded t (map row_of picked.old) }
    ensures { Summed (sum_by t.entry) picked.old picked.new result }
{
    store_sums(t, picked);
    let Some(_) = mark_all(picked) else {
        return Err(Refusal::DistanceNotFinite);
    };
    Ok(())
}
