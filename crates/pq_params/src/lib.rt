// The numbers of an index with the Rust's defaults, their bounds, the range rule, the lengths of the buffers, and the tests of rows and draws.
#![tactic(auto)]

ghost use Rattle.std.specs.Prelude.{◌≡◌, false, ◌≤◌};
ghost use Rattle.pq_params.specs.Defaults.{plain_default, celled_default};
ghost use Rattle.pq_params.specs.Bounds.{bad_range, bad_plain, bad_celled, bad_epochs, too_many_rows, too_many_draws, too_much_asked, centers_of};
ghost use Rattle.pq_params.specs.Ranges.{width_of, begin_of, covered_of, ranges_used, pair_at, ranges_of};
ghost use Rattle.pq_params.specs.Lengths.{subs_long, table_long, plain_of, refused_plain, plain_lengths, celled_of, refused_celled, celled_lengths};
ghost use Rattle.pq_params.specs.Refusals.{any_not_finite, any_draw_out, train_tests, search_tests, check_tests};

use answers::Refusal;

// The plain index's parameters.
#[repr(C)]
#[derive(Clone, Copy, Debug, PartialEq, Eq)]
pub struct PQParams {
    pub n_sub: usize,
    pub sub_bits: usize,
    pub train_epoch: usize,
}

impl Default for PQParams {
    // The Rust's defaults: 4 sub-spaces, 4 bits a code, 100 epochs.
    fn default() -> PQParams
        ensures { result ≡ plain_default }
    {
        PQParams {
            n_sub: 4,
            sub_bits: 4,
            train_epoch: 100,
        }
    }
}

// The celled index's parameters: the plain ones, the number of cells and how many of them a search probes.
#[repr(C)]
#[derive(Clone, Copy, Debug, PartialEq, Eq)]
pub struct IVFPQParams {
    pub n_sub: usize,
    pub sub_bits: usize,
    pub n_kmeans_center: usize,
    pub search_n_center: usize,
    pub train_epoch: usize,
}

impl Default for IVFPQParams {
    // The Rust's defaults: 25 sub-spaces, 4 bits a code, 256 cells, 8 probes, 100 epochs.
    fn default() -> IVFPQParams
        ensures { result ≡ celled_default }
    {
        IVFPQParams {
            n_sub: 25,
            sub_bits: 4,
            n_kmeans_center: 256,
            search_n_center: 8,
            train_epoch: 100,
        }
    }
}

// The numbers of a plain index: D coordinates, n_sub sub-spaces, sub_bits bits a code.
#[derive(Clone, Copy, Debug, PartialEq, Eq)]
pub struct Shape {
    pub d: usize,
    pub nsub: usize,
    pub bits: usize,
}

// The numbers of a celled index: those of its sub-spaces, the cells, and how many of them a search probes.
#[derive(Clone, Copy, Debug, PartialEq, Eq)]
pub struct CelledShape {
    pub plain: Shape,
    pub cells: usize,
    pub probes: usize,
}

// Whether D or n_sub is outside its bounds: the range rule's refusal 1.
pub fn bad_range(d: usize, nsub: usize) -> bool
    ensures { result ≡ bad_range d nsub }
{
    (d == 0) | (256 < d) | (nsub == 0) | (64 < nsub) | (d < nsub)
}

// Whether D, n_sub or sub_bits is outside its bounds: the plain index's refusal 1.
pub fn bad_plain(s: Shape) -> bool
    ensures { result ≡ bad_plain s }
{
    bad_range(s.d, s.nsub) | (8 < s.bits)
}

// Whether one of the celled index's numbers is outside its bounds: its refusal 1.
pub fn bad_celled(s: CelledShape) -> bool
    ensures { result ≡ bad_celled s }
{
    bad_plain(s.plain) | (s.cells == 0) | (1024 < s.cells) | (s.probes == 0) | (s.cells < s.probes)
}

// Whether there are too many epochs: training's refusal 1.
pub fn bad_epochs(epochs: usize) -> bool
    ensures { result ≡ bad_epochs epochs }
{
    1000 < epochs
}

// Whether there are too many rows: refusal 3.
pub fn too_many_rows(n: usize) -> bool
    ensures { result ≡ too_many_rows n }
{
    100_001 < n
}

// Whether too many draws are lent: refusal 4.
pub fn too_many_draws(draws: usize) -> bool
    ensures { result ≡ too_many_draws draws }
{
    16_777_216 < draws
}

// Whether too many results are asked for: refusal 5.
pub fn too_much_asked(k: usize) -> bool
    ensures { result ≡ too_much_asked k }
{
    4_096 < k
}

// K, the number of centres of a sub-space.
pub fn centers(bits: usize) -> usize
    requires { bits ≤ 8 }
    ensures { result ≡ centers_of bits }
{
    1 << bits
}

// How long range i is.
pub fn range_width(d: usize, nsub: usize, i: usize) -> usize
    requires { bad_range d nsub ≡ false }
    ensures { result ≡ width_of d nsub i }
{
    let sub_dimension = d / nsub;
    if i < d % sub_dimension {
        sub_dimension + 1
    } else {
        sub_dimension
    }
}

// Where range i begins; for i = n_sub, where the last one ends.
pub fn range_begin(d: usize, nsub: usize, i: usize) -> usize
    requires { (bad_range d nsub ≡ false) × (i ≤ nsub) }
    ensures { result ≡ begin_of d nsub i }
{
    let sub_dimension = d / nsub;
    i * sub_dimension + lists::least(i, d % sub_dimension)
}

// C, the coordinates covered.
pub fn covered(d: usize, nsub: usize) -> usize
    requires { bad_range d nsub ≡ false }
    ensures { result ≡ covered_of d nsub }
{
    range_begin(d, nsub, nsub)
}

// How many places of the fixed list hold a range: none in refusal 1.
fn ranges_used(d: usize, nsub: usize) -> usize
    ensures { result ≡ ranges_used d nsub }
{
    if bad_range(d, nsub) { 0 } else { nsub }
}

// Place i of document 01's fixed list: range i's begin and end, or 0, 0.
pub fn range_at(d: usize, nsub: usize, i: usize) -> [usize; 2]
    ensures { result ≡ pair_at d nsub i }
{
    if i < ranges_used(d, nsub) {
        let begin = range_begin(d, nsub, i);
        let end = begin + range_width(d, nsub, i);
        return [begin, end];
    }
    [0, 0]
}

// The list of ranges, for any D and n_sub.
pub fn ranges(d: usize, nsub: usize) -> [[usize; 2]; 64]
    ensures { result ≡ ranges_of d nsub }
{
    let mut out = [[0usize; 2]; 64];
    for (i, pair) in out.iter_mut().enumerate() {
        *pair = range_at(d, nsub, i);
    }
    out
}

// K·C: how long the sub-centres of one cell are.
pub fn subs_long(s: Shape) -> usize
    requires { bad_plain s ≡ false }
    ensures { result ≡ subs_long s }
{
    let k = centers(s.bits);
    let c = covered(s.d, s.nsub);
    k * c
}

// n_sub·K: how long a table is.
pub fn table_long(s: Shape) -> usize
    requires { bad_plain s ≡ false }
    ensures { result ≡ table_long s }
{
    let k = centers(s.bits);
    s.nsub * k
}

// The lengths of a plain index's buffers, in elements, as C reads them. The number is 0, or the refusal of the numbers and n; then all lengths are 0.
#[repr(C)]
#[derive(Clone, Copy, Debug, PartialEq, Eq)]
pub struct PlainLengths {
    pub number: u32,
    pub rows: usize,
    pub subs: usize,
    pub codes: usize,
    pub work: usize,
    pub table: usize,
}

// The lengths of a refusal.
fn refused_plain(number: u32) -> PlainLengths
    ensures { result ≡ refused_plain number }
{
    PlainLengths {
        number,
        rows: 0,
        subs: 0,
        codes: 0,
        work: 0,
        table: 0,
    }
}

// The lengths where tests 1 and 3 let the numbers pass.
fn plain_sizes(s: Shape, n: usize) -> PlainLengths
    requires { (bad_plain s ≡ false) × (n ≤ 100_001) }
    ensures { result ≡ plain_of s n }
{
    let subs = subs_long(s);
    let table = table_long(s);
    PlainLengths {
        number: 0,
        rows: n * s.d,
        subs,
        codes: n * s.nsub,
        work: n + 1024,
        table,
    }
}

// How long each buffer of a plain index of n rows must be.
pub fn plain_lengths(s: Shape, n: usize) -> PlainLengths
    ensures { result ≡ plain_lengths s n }
{
    if bad_plain(s) {
        return refused_plain(1);
    }
    if too_many_rows(n) {
        return refused_plain(3);
    }
    plain_sizes(s, n)
}

// The lengths of a celled index's buffers, in elements, as C reads them. The number is 0, or the refusal of the numbers and n; then all lengths are 0.
#[repr(C)]
#[derive(Clone, Copy, Debug, PartialEq, Eq)]
pub struct CelledLengths {
    pub number: u32,
    pub rows: usize,
    pub coarse: usize,
    pub starts: usize,
    pub members: usize,
    pub subs: usize,
    pub codes: usize,
    pub work: usize,
    pub table: usize,
}

// The lengths of a refusal.
fn refused_celled(number: u32) -> CelledLengths
    ensures { result ≡ refused_celled number }
{
    CelledLengths {
        number,
        rows: 0,
        coarse: 0,
        starts: 0,
        members: 0,
        subs: 0,
        codes: 0,
        work: 0,
        table: 0,
    }
}

// The lengths where tests 1 and 3 let the numbers pass.
fn celled_sizes(s: CelledShape, n: usize) -> CelledLengths
    requires { (bad_celled s ≡ false) × (n ≤ 100_001) }
    ensures { result ≡ celled_of s n }
{
    let p = plain_sizes(s.plain, n);
    CelledLengths {
        number: 0,
        rows: p.rows,
        coarse: s.cells * s.plain.d,
        starts: s.cells + 1,
        members: n,
        subs: s.cells * p.subs,
        codes: p.codes,
        work: p.work,
        table: p.table,
    }
}

// How long each buffer of a celled index of n rows must be.
pub fn celled_lengths(s: CelledShape, n: usize) -> CelledLengths
    ensures { result ≡ celled_lengths s n }
{
    if bad_celled(s) {
        return refused_celled(1);
    }
    if too_many_rows(n) {
        return refused_celled(3);
    }
    celled_sizes(s, n)
}

// Whether a coordinate of a row or of a query is not finite: refusal 6.
pub fn any_not_finite(s: &[f32]) -> bool
    ensures { result ≡ any_not_finite s.now }
{
    !metrics::all_finite(s)
}

// Whether a draw is not in 0 ≤ d < 1: refusal 7. A NaN is neither.
pub fn any_draw_out(draws: &[f64]) -> bool
    ensures { result ≡ any_draw_out draws.now }
{
    for d in draws {
        if !((0.0 <= *d) & (*d < 1.0)) {
            return true;
        }
    }
    false
}

// The tests of a training, of which the caller made 1 and 4: the first that refuses.
pub fn train_refusal(
    bad: bool,
    n: usize,
    wrong: bool,
    rows: &[f32],
    draws: &[f64],
) -> Result<(), Refusal>
    ensures { result ≡ train_tests bad n wrong rows.now draws.now }
{
    if bad {
        return Err(Refusal::NumbersOutOfBounds);
    }
    if n == 0 {
        return Err(Refusal::NoRows);
    }
    if too_many_rows(n) {
        return Err(Refusal::TooManyRows);
    }
    if wrong {
        return Err(Refusal::WrongLength);
    }
    if any_not_finite(rows) {
        return Err(Refusal::NotFinite);
    }
    if any_draw_out(draws) {
        return Err(Refusal::DrawOutOfRange);
    }
    Ok(())
}

// The tests of a search for k places, of which the caller made 1 and 4: the first that refuses.
pub fn search_refusal(
    bad: bool,
    n: usize,
    wrong: bool,
    k: usize,
    query: &[f32],
) -> Result<(), Refusal>
    ensures { result ≡ search_tests bad n wrong k query.now }
{
    if bad {
        return Err(Refusal::NumbersOutOfBounds);
    }
    if too_many_rows(n) {
        return Err(Refusal::TooManyRows);
    }
    if wrong {
        return Err(Refusal::WrongLength);
    }
    if too_much_asked(k) {
        return Err(Refusal::TooManyAsked);
    }
    if any_not_finite(query) {
        return Err(Refusal::NotFinite);
    }
    Ok(())
}

// The tests of the whole check, of which the caller made 1 and 4: the first that refuses.
pub fn check_refusal(bad: bool, n: usize, wrong: bool) -> Result<(), Refusal>
    ensures { result ≡ check_tests bad n wrong }
{
    if bad {
        return Err(Refusal::NumbersOutOfBounds);
    }
    if too_many_rows(n) {
        return Err(Refusal::TooManyRows);
    }
    if wrong {
        return Err(Refusal::WrongLength);
    }
    Ok(())
}
