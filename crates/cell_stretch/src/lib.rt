// One stretch of a cell's rows, at most 64: the visible ones are picked, their sums are worked out together, and they are offered to the
// results in their order. Hidden rows' codes are never looked up.
// What is written stays flat parameters: a struct of `&mut` would need a ghost name for each in every clause.
#![tactic(auto)]

ghost use Rattle.std.specs.Prelude.{◌≡◌, cond};
ghost use Rattle.neighbor.specs.Gathered.{batch_of, runs, Gathered};
ghost use Rattle.cell_codes.specs.Codes.{row_at, visible};
ghost use Rattle.cell_stretch.specs.StretchInner.{Ready, sums_of, Stretch, Picking, Picked, Visited};

use answers::Refusal;
use cell_sums::Sums;
use cell_table::CellView;
use neighbor::Candidate;

// How the walk goes on after a stretch: how many the results hold, how many wait in the batch, and how many rows were offered.
#[derive(Clone, Copy, Debug, PartialEq, Eq)]
pub struct Went {
    pub found: usize,
    pub waiting: usize,
    pub count: usize,
}

// The visible rows of a stretch, in their order: each is stored at the next place, which only a visible one takes up.
fn pick_rows(z: CellView<'_>, from: usize, to: usize, picked: &mut [Candidate]) -> usize
    requires { Picking z from to picked.old }
    ensures { Picked (visible z.entry.mask.now) (row_at z.entry) from to picked.new result }
{
    let mut n: usize = 0;
    for i in from..to {
        let m = cell_codes::row_at(z, i);
        picked[n].row = m as u32;
        n += usize::from(cell_codes::is_visible(z.mask, m));
    }
    n
}

// One stretch: its visible rows are picked and summed up, and where all sums are finite, they are offered.
pub fn visit_stretch(
    z: CellView<'_>,
    centers: usize,
    table: &[f32],
    from: usize,
    to: usize,
    rows: &mut [u32],
    sums: &mut [f32],
    found: usize,
    batch: &mut [Candidate],
    waiting: usize,
) -> Result<Went, Refusal>
    requires ready { Ready z centers table.now × Stretch z from to }
    requires gathered { Gathered (runs rows.old sums.old found (batch_of batch.old waiting)) }
    ensures { Visited (sums_of z.entry centers table.now) (visible z.entry.mask.now) (row_at z.entry) from to
        (runs rows.old sums.old found (batch_of batch.old waiting))
        rows.new sums.new batch.new result }
{
    let mut places = [Candidate { sum: 0.0, row: 0 }; 64];
    let count = pick_rows(z, from, to, &mut places);
    let picked = &mut places[..count];
    let t = Sums {
        codes: z.codes,
        nsub: z.shape.nsub,
        centers,
        table,
    };
    cell_sums::sum_picked(t, picked)?;
    let kept = offers::offer_all(rows, sums, found, batch, waiting, picked);
    Ok(Went {
        found: kept.found,
        waiting: kept.waiting,
        count,
    })
}
