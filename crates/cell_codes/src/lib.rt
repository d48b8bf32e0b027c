// The rows of one cell: which of them are visible, and step 3's test of their codes.
#![tactic(auto)]

ghost use Rattle.std.specs.Prelude.{◌≡◌, false, not, ◌+◌, ◌*◌, ◌≤◌, ◌<◌, eqb, length};
ghost use Rattle.lists.specs.Tests.{every};
ghost use Rattle.pq_params.specs.Bounds.{bad_plain};
ghost use Rattle.cell_codes.specs.Codes.{row_at, visible, visible_rows, codes_sound, cell_of};
ghost use Rattle.cell_codes.specs.CodesInner.{number_at, highest_of, under, codes_under, row_sound, sound_at, Numbered, Rows};

use cell_table::CellView;

// The highest code of a run, or 0.
fn highest(codes: &[u8]) -> u8
    ensures { result ≡ highest_of (number_at codes.now) (length codes.now) }
{
    let mut most: u8 = 0;
    for code in codes {
        most = most.max(*code);
    }
    most
}

// Whether row m is visible.
pub fn is_visible(mask: &[u8], m: usize) -> bool
    requires { m < length mask.now }
    ensures { result ≡ visible mask.now m }
{
    mask[m] != 0
}

// The number of the i-th row of a cell.
pub fn row_at(z: CellView<'_>, i: usize) -> usize
    requires { Numbered z × (i < z.n) }
    ensures { result ≡ row_at z.entry i }
{
    lists::row_number(z.members, i)
}

// Whether some row of the cell is visible: else no table is worked.
pub fn any_visible(z: CellView<'_>) -> bool
    requires { Numbered z }
    ensures { result ≡ not (eqb (length (visible_rows (cell_of z.entry))) 0) }
{
    (0..z.n).any(|i| is_visible(z.mask, row_at(z, i)))
}

// Whether the codes of row m are below K.
fn codes_below(codes: &[u8], nsub: usize, centers: usize, m: usize) -> bool
    requires { (m * nsub + nsub ≤ length codes.now) × (0 < centers) }
    ensures { result ≡ codes_under codes.now nsub centers m }
{
    let a = m * nsub;
    let e = a + nsub;
    lists::wide_byte(highest(&codes[a..e])) < centers
}

// Whether row m is hidden or its codes are below K.
fn row_sound(z: CellView<'_>, centers: usize, m: usize) -> bool
    requires { (m < length z.mask.now) × (m * z.shape.nsub + z.shape.nsub ≤ length z.codes.now) × (0 < centers) }
    ensures { result ≡ row_sound z.entry.mask.now z.entry.codes.now z.entry.shape.nsub centers m }
{
    let shown = is_visible(z.mask, m);
    let below = codes_below(z.codes, z.shape.nsub, centers, m);
    !shown | below
}

// Whether each row of the cell is hidden or its codes are below K, row by row.
fn rows_sound(z: CellView<'_>, centers: usize) -> bool
    requires { Rows z × (0 < centers) }
    ensures { result ≡ every (sound_at z.entry centers) z.entry.n }
{
    let mut all = true;
    for i in 0..z.n {
        all &= row_sound(z, centers, row_at(z, i));
    }
    all
}

// Whether all codes are below K. A byte is below 256, with no look at it; else the highest code tells. (The whole check tests each.)
fn all_below(codes: &[u8], centers: usize) -> bool
    requires { 0 < centers }
    ensures { result ≡ every (under codes.now centers) (length codes.now) }
{
    if centers == 256 {
        return true;
    }
    lists::wide_byte(highest(codes)) < centers
}

// Step 3: whether the codes of the cell's visible rows are below K. Where all codes are, so are those of the visible rows; else row by
// row, and so at once in a cell with a list, which need not have all rows.
pub fn codes_sound(z: CellView<'_>) -> bool
    requires { (bad_plain z.shape ≡ false) × Rows z }
    ensures { result ≡ codes_sound (cell_of z.entry) }
{
    let centers = pq_params::centers(z.shape.bits);
    if (centers == 256 || z.members.is_none()) && all_below(z.codes, centers) {
        return true;
    }
    rows_sound(z, centers)
}
