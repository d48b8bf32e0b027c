// Candidates are offered to the results one after the other, by way of the batch.
#![tactic(auto)]

ghost use Rattle.std.specs.Prelude.{◌≡◌};
ghost use Rattle.std.specs.List.{list_all};
ghost use Rattle.neighbor.specs.Held.{AllFinite};
ghost use Rattle.neighbor.specs.Gathered.{batch_of, runs, Gathered};
ghost use Rattle.offers.specs.OffersInner.{offered_all, behind};

use neighbor::{Candidate, Counts};

// Whether none of those picked comes before `least`.
fn all_behind(least: Candidate, picked: &[Candidate]) -> bool
    ensures { result ≡ list_all (behind least) picked.now }
{
    // Not by `all`, which ends at the first that does: so all are tested side by side.
    let mut all = true;
    for c in picked {
        let before = neighbor::precedes(*c, least);
        all = all & !before;
    }
    all
}

// Those picked are offered to the results, in their order.
fn offer_each(
    rows: &mut [u32],
    sums: &mut [f32],
    found: usize,
    batch: &mut [Candidate],
    waiting: usize,
    picked: &[Candidate],
) -> Counts
    requires gathered { Gathered (runs rows.old sums.old found (batch_of batch.old waiting)) }
    requires finite { AllFinite picked.now }
    ensures { runs rows.new sums.new result.found (batch_of batch.new result.waiting) ≡
        offered_all (runs rows.old sums.old found (batch_of batch.old waiting)) picked.now }
{
    let mut counts = Counts { found, waiting };
    for c in picked {
        counts = neighbor::offer(rows, sums, counts.found, batch, counts.waiting, *c);
    }
    counts
}

// The same, where all places are held and none of those picked comes before the last, with nothing to do.
pub fn offer_all(
    rows: &mut [u32],
    sums: &mut [f32],
    found: usize,
    batch: &mut [Candidate],
    waiting: usize,
    picked: &[Candidate],
) -> Counts
    requires gathered { Gathered (runs rows.old sums.old found (batch_of batch.old waiting)) }
    requires finite { AllFinite picked.now }
    ensures { runs rows.new sums.new result.found (batch_of batch.new result.waiting) ≡
        offered_all (runs rows.old sums.old found (batch_of batch.old waiting)) picked.now }
{
    if 0 < found && found == rows.len() {
        let least = neighbor::candidate_at(rows, sums, found - 1);
        if all_behind(least, picked) {
            return Counts { found, waiting };
        }
    }
    offer_each(rows, sums, found, batch, waiting, picked)
}
