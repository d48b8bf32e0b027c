// Replays the recorded plain indexes of the Rust through our training and search, and prints how many agree. data/plain.bin is what the
// oracle's command `record` writes, from the Rust's own answers; oracle/README.md has its layout.
#![tactic(auto)]

mod kind_plain;

use lending::buffers::{FILE, filled};
use lending::parts::first;
use lending::tally::Tally;
use lending::{reading, tally};
use recorded::replay::replayed;
use std::fs::File;
use std::{fs, io};

// The kind of the file's cases.
const PLAIN: u32 = 2;

// How many cases of an open file agree. Of each program its own: its size of file and kind of case are constants.
fn replay_file(from: &mut File) -> io::Result<Tally> {
    let mut file: [u8; FILE] = filled(0);
    let n = reading::read_full(from, &mut file)?;
    Ok(replayed(first(&file, n), PLAIN, kind_plain::agrees))
}

// The file.
fn main(rt: HostRuntime) -> io::Result<()> {
    let mut out = io::writer(&rt);
    let mut from = fs::open(&rt, "plain.bin")?;
    tally::say_tally(&mut out, b"plain ", replay_file(&mut from)?)?;
    Ok(())
}
