// What the programs share: buffers to lend, the first elements of one, lists written into one and compared with one bit for bit, and
// counting what agrees.
#![tactic(auto)]

pub mod buffers;
pub mod held;
pub mod listed;
pub mod parts;
pub mod reading;
pub mod tally;
