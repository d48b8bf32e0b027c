// One cell as a search meets it, and step 4 of a search there: the table of distances from the query to the cell's sub-centres.
#![tactic(auto)]

ghost use Rattle.std.specs.Prelude.{◌≡◌, ◌*◌, ◌<◌, length, option_copied, IfSome};
ghost use Rattle.cell_table.specs.Tables.{query_of, entry_of};
ghost use Rattle.cell_table.specs.TablesInner.{Stored, StoredAt, Filled, Tabled, distance_at, stretch_entry, Parts, Tabling};

use answers::Refusal;
use pq_params::Shape;

// One cell of an index, and what a search looks up there: the cell's number (plain: 0), how many rows it has, the query, the cell's own
// coarse centre (plain: none), the sub-centres of all cells, the row mask and the codes, by row number, and the cell's list of rows
// (plain: none, and its rows are all).
#[derive(Clone, Copy, Debug, PartialEq)]
pub struct CellView<'a> {
    pub shape: Shape,
    pub cell: usize,
    pub n: usize,
    pub query: &'a [f32],
    pub center: Option<&'a [f32]>,
    pub subs: &'a [f32],
    pub mask: &'a [u8],
    pub codes: &'a [u8],
    pub members: Option<&'a [u32]>,
}

// The distances of the values of x to the centres of one sub-space, centres rising. The first that is not finite is refused.
fn fill_range(
    x: &[f32],
    residual: Option<&[f32]>,
    centers: &[f32],
    out: &mut [f32],
) -> Result<(), Refusal>
    requires centers_long { length centers.now ≡ length out.old * length x.now }
    requires residual_long { IfSome residual (λ r. length r.now ≡ length x.now) }
    ensures { Stored (distance_at x.now (option_copied residual.entry) centers.now (length x.now)) (length out.old)
        out.new result }
{
    for (q, d) in out.iter_mut().enumerate() {
        let c = lists::stretch(centers, q, x.len());
        let Some(v) = metrics::distance(x, residual, c) else {
            return Err(Refusal::DistanceNotFinite);
        };
        *d = v;
    }
    Ok(())
}

// Sub-space s of the table, by the cell's own sub-centres.
fn fill_sub(
    z: CellView<'_>,
    centers: usize,
    own: &[f32],
    s: usize,
    table: &mut [f32],
) -> Result<(), Refusal>
    requires parts { Parts z centers own.now table.old }
    requires s_lt_nsub { s < z.shape.nsub }
    ensures { StoredAt (stretch_entry z.entry.shape centers (query_of z.entry) own.now s) centers s
        table.old table.new result }
{
    let p = z.shape;
    let begin = pq_params::range_begin(p.d, p.nsub, s);
    let w = pq_params::range_width(p.d, p.nsub, s);
    let x = lists::part(z.query, begin, w);
    let less = lists::part_if(z.center, begin, w);
    let c = lists::part(own, centers * begin, centers * w);
    let a = s * centers;
    let e = a + centers;
    fill_range(x, less, c, &mut table[a..e])
}

// The table by the cell's own sub-centres, sub-spaces rising. The first entry that is not finite is refused.
fn fill_subs(z: CellView<'_>, centers: usize, own: &[f32], table: &mut [f32]) -> Result<(), Refusal>
    requires { Parts z centers own.now table.old }
    ensures { Filled (stretch_entry z.entry.shape centers (query_of z.entry) own.now) z.entry.shape.nsub centers
        table.new result }
{
    for s in 0..z.shape.nsub {
        fill_sub(z, centers, own, s, table)?;
    }
    Ok(())
}

// The table of one cell, entry (s, q) at s·K + q: distances of the query, less the cell's coarse centre if there is one, to the cell's
// sub-centres. At the first entry that is not finite it is refused, and the table is zero.
pub fn fill_table(z: CellView<'_>, table: &mut [f32]) -> Result<(), Refusal>
    requires { Tabling z table.old }
    ensures { Tabled (entry_of z.entry.shape (query_of z.entry) z.entry.subs.now z.entry.cell) z.entry.shape
        table.new result }
{
    let centers = pq_params::centers(z.shape.bits);
    let own = lists::stretch(z.subs, z.cell, pq_params::subs_long(z.shape));
    let filled = fill_subs(z, centers, own, table);
    if filled.is_err() {
        lists::fill(table, 0.0);
    }
    filled
}
