// Replays the recorded k-means of the Rust, and document 01's worked examples, through our code, and prints how many agree.
// data/kmeans.bin is what the oracle's command `record` writes, from the Rust's own answers; oracle/README.md has its layout.
#![tactic(auto)]

mod checked;
mod examples;
mod fits;
mod kind_kmeans;

use lending::buffers::filled;
use lending::parts::first;
use lending::tally::Tally;
use lending::{reading, tally};
use recorded::replay::replayed;
use std::fs::File;
use std::{fs, io};

// The kind of the file's cases.
const KMEANS: u32 = 1;

// How many cases of an open file agree. Of each program its own: its size of file and kind of case are constants.
fn replay_file(from: &mut File) -> io::Result<Tally> {
    let mut file: [u8; 1_048_576] = filled(0);
    let n = reading::read_full(from, &mut file)?;
    Ok(replayed(first(&file, n), KMEANS, kind_kmeans::agrees))
}

// The examples, then the file.
fn main(rt: HostRuntime) -> io::Result<()> {
    let mut out = io::writer(&rt);
    tally::say_tally(&mut out, b"examples ", examples::agreeing())?;
    let mut from = fs::open(&rt, "kmeans.bin")?;
    tally::say_tally(&mut out, b"k-means ", replay_file(&mut from)?)?;
    Ok(())
}
