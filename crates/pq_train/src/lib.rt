// Training of one list of rows, all rows or those of a cell: its sub-centres, and the codes of its rows.
// What is written stays flat parameters: a struct of `&mut` would need a ghost name for each in every clause.
#![tactic(auto)]

ghost use Rattle.std.specs.Prelude.{◌≡◌, false, ◌+◌, ◌*◌, ◌≤◌, ◌<◌, length, IfSome, option_copied};
ghost use Rattle.lists.specs.Lists.{put_part, tab};
ghost use Rattle.pq_params.specs.Bounds.{bad_plain};
ghost use Rattle.kmeans_assign.specs.Task.{task_given};
ghost use Rattle.kmeans_split.specs.Split.{NotNegative};
ghost use Rattle.pq_train.specs.Training.{task_of as sub_task};
ghost use Rattle.pq_train.specs.Inner.{listed_of, frame_of, Listing, Lent, FramedIn, Ran, RanAt, stretch_at, stretch_long};
ghost use Rattle.pq_train.specs.Inner.{Centered, list_out, list_outcome, Coding, row_in, code_by};

use answers::{Stage, Unclustered, Untrained};
use kmeans_assign::{Frame, Given};
use pq_params::Shape;

// One list of rows to train: the index's numbers and the epochs, the cell, how many rows there are, the rows, the list that names them
// (None: all rows), and the coarse centre that is taken off each, of D coordinates, if any.
#[derive(Clone, Copy, Debug, PartialEq)]
pub struct RowList<'a> {
    pub shape: Shape,
    pub epochs: u32,
    pub cell: u32,
    pub n: usize,
    pub rows: &'a [f32],
    pub members: Option<&'a [u32]>,
    pub center: Option<&'a [f32]>,
}

// The frame of sub-space s.
fn frame(l: RowList<'_>, s: usize) -> Frame
    requires { (bad_plain l.shape ≡ false) × (s < l.shape.nsub) }
    ensures { result ≡ frame_of l.entry s }
{
    Frame {
        d: l.shape.d,
        begin: pq_params::range_begin(l.shape.d, l.shape.nsub, s),
        w: pq_params::range_width(l.shape.d, l.shape.nsub, s),
        n: l.n,
        centers: pq_params::centers(l.shape.bits),
    }
}

// The k-means of one sub-space.
fn train_stretch(
    g: Given<'_>,
    draws: &[f64],
    used: usize,
    epochs: u32,
    centers: &mut [f32],
    assigned: &mut [u32],
) -> Result<usize, Unclustered>
    requires framed_in { FramedIn g }
    requires centers_len { (length centers.old ≡ g.frame.centers * g.frame.w) × (length assigned.old ≡ g.frame.n)
        × (epochs ≤ 1000) × (used ≤ length draws.now) }
    requires not_negative { NotNegative draws.now }
    ensures { Ran (task_given g.entry epochs draws.now) used result centers.new assigned.new }
{
    let mut counts = [0u32; 256];
    let k = g.frame.centers;
    kmeans::train(g, draws, used, epochs, centers, assigned, &mut counts[..k])
}

// The same, into the stretch of the sub-centres that begins at `at`.
fn train_at(
    g: Given<'_>,
    draws: &[f64],
    used: usize,
    epochs: u32,
    subs: &mut [f32],
    at: usize,
    assigned: &mut [u32],
) -> Result<usize, Unclustered>
    requires framed_in { FramedIn g }
    requires w_in_bounds { (at + g.frame.centers * g.frame.w ≤ length subs.old) × (length assigned.old ≡ g.frame.n)
        × (epochs ≤ 1000) × (used ≤ length draws.now) }
    requires not_negative { NotNegative draws.now }
    ensures { RanAt (task_given g.entry epochs draws.now) used at (g.entry.frame.centers * g.entry.frame.w)
        subs.old result subs.new assigned.new }
{
    let e = at + g.frame.centers * g.frame.w;
    train_stretch(g, draws, used, epochs, &mut subs[at..e], assigned)
}

// Sub-space s: its k-means into its own stretch of the sub-centres.
fn train_sub(
    l: RowList<'_>,
    s: usize,
    draws: &[f64],
    used: usize,
    subs: &mut [f32],
    assigned: &mut [u32],
) -> Result<usize, Unclustered>
    requires listing { Listing l draws.now }
    requires lent { Lent l used draws.now subs.old assigned.old × (s < l.shape.nsub) }
    ensures { RanAt (sub_task (listed_of l.entry draws.now 0) s) used
        (stretch_at l.entry.shape s) (stretch_long l.entry.shape s) subs.old result subs.new assigned.new }
{
    let f = frame(l, s);
    let g = Given {
        frame: f,
        rows: l.rows,
        members: l.members,
        residual: lists::part_if(l.center, f.begin, f.w),
    };
    train_at(
        g,
        draws,
        used,
        l.epochs,
        subs,
        f.centers * f.begin,
        assigned,
    )
}

// All sub-spaces, rising; the draws used so far are carried on.
fn train_center(
    l: RowList<'_>,
    draws: &[f64],
    start: usize,
    subs: &mut [f32],
    assigned: &mut [u32],
) -> Result<usize, Untrained>
    requires listing { Listing l draws.now }
    requires lent { Lent l start draws.now subs.old assigned.old }
    ensures { Centered (listed_of l.entry draws.now start) result subs.new }
{
    let mut used = start;
    for s in 0..l.shape.nsub {
        let c = train_sub(l, s, draws, used, subs, assigned);
        let stage = Stage::Sub {
            cell: l.cell,
            sub: s as u32,
        };
        used = answers::at_stage(stage, c)?;
    }
    Ok(used)
}

// The sub-centres of a list, or zeros where its training is refused. The assignments are scratch, and zero afterwards.
pub fn train_list(
    l: RowList<'_>,
    draws: &[f64],
    used: usize,
    subs: &mut [f32],
    assigned: &mut [u32],
) -> Result<usize, Untrained>
    requires listing { Listing l draws.now }
    requires lent { Lent l used draws.now subs.old assigned.old }
    ensures { list_out result subs.new assigned.new
        ≡ list_outcome (listed_of l.entry draws.now used) (length subs.old) }
{
    let t = train_center(l, draws, used, subs, assigned);
    lists::fill(assigned, 0);
    if t.is_err() {
        lists::fill(subs, 0.0);
    }
    t
}

// The code of a row x, less the residual, in sub-space s: the nearest of the list's sub-centres there.
fn code_of(l: RowList<'_>, s: usize, x: &[f32], subs: &[f32]) -> u8
    requires { Coding l.shape x.now (option_copied l.center) subs.now × (s < l.shape.nsub) }
    ensures { result ≡ code_by l.entry.shape x.now (option_copied l.entry.center) subs.now s }
{
    let f = frame(l, s);
    let values = lists::part(x, f.begin, f.w);
    let residual = lists::part_if(l.center, f.begin, f.w);
    let centers = lists::part(subs, f.centers * f.begin, f.centers * f.w);
    kmeans_assign::nearest(values, residual, centers, f.centers) as u8
}

// The codes of a row x, less the residual.
fn code_row(l: RowList<'_>, x: &[f32], subs: &[f32], codes: &mut [u8])
    requires { Coding l.shape x.now (option_copied l.center) subs.now × (length codes.old ≡ l.shape.nsub) }
    ensures { codes.new ≡ tab (code_by l.entry.shape x.now (option_copied l.entry.center) subs.now) l.entry.shape.nsub }
{
    for (s, code) in codes.iter_mut().enumerate() {
        *code = code_of(l, s, x, subs);
    }
}

// The codes of row m go to their place.
#[tactic(auto, unfolding(lists::specs::Lists::put_part))]
pub fn fill_row(l: RowList<'_>, m: usize, subs: &[f32], codes: &mut [u8])
    requires { Coding l.shape (row_in l.shape l.rows.now m) (option_copied l.center) subs.now
        × (m * l.shape.d + l.shape.d ≤ length l.rows.now)
        × (m * l.shape.nsub + l.shape.nsub ≤ length codes.old) }
    ensures { let z = l.entry.shape in
        codes.new ≡ put_part codes.old (m * z.nsub) z.nsub
        (tab (code_by z (row_in z l.entry.rows.now m) (option_copied l.entry.center) subs.now) z.nsub) }
{
    let x = lists::stretch(l.rows, m, l.shape.d);
    let at = m * l.shape.nsub;
    let e = at + l.shape.nsub;
    code_row(l, x, subs, &mut codes[at..e]);
}
