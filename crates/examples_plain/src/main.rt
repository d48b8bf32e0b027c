// Runs document 01's examples of the plain index, and their neighbours, through our training and search, and prints how many come out
// as document 01 says.
#![tactic(auto)]

mod given;
mod searches;
mod trainings;

use lending::tally;
use lending::tally::Tally;
use std::io;

// The trainings, then the searches.
fn main(rt: HostRuntime) -> io::Result<()> {
    let t = trainings::agreeing(Tally::default());
    tally::say_tally(&mut io::writer(&rt), b"examples ", searches::agreeing(t))?;
    Ok(())
}
