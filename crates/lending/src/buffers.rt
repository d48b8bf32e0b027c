// Buffers for the largest file, and for the largest case and example of any program, each full of one value. Each promises its length
// beside what it holds, so that lending it asks for no proof.
ghost use Rattle.lending.specs.Filled.{Filled};

// What stands in a buffer of floats that nobody wrote.
pub const DIRTY_FLOAT: f32 = 7.5;

// What stands in a buffer of numbers that nobody wrote.
pub const DIRTY_NUMBER: u32 = 3_735_928_559;

// What stands in a buffer of bytes that nobody wrote.
pub const DIRTY_BYTE: u8 = 165;

// The bytes of the largest file.
pub const FILE: usize = 2_097_152;

// The draws of the largest case.
pub const DRAWS: usize = 20_000;

// As many floats as 100,002 rows of one coordinate have, and as many bytes as their mask.
pub const ROWS: usize = 100_002;

// As many numbers as work has with 100,002 rows.
pub const WORK: usize = 101_026;

// A buffer that is full of one value.
pub fn filled<T: Copy, const N: usize>(v: T) -> [T; N]
    ensures { Filled N v result }
{
    [v; N]
}
