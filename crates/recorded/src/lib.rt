// What the programs that replay recorded answers share: the layout of a recorded file, comparing with its words bit for bit, and going
// through its cases.
#![tactic(auto)]

pub mod compare;
pub mod layout;
pub mod replay;
