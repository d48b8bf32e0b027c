// The bytes of a reader, in a buffer.
ghost use Rattle.std.specs.Prelude.{◌≤◌, ◌<◌, length, take, IfOk, OnErr};
ghost use Rattle.std.specs.Io.KnownBytes.{Consumes, IsAtEnd};
ghost use Rattle.lending.specs.Failed.{GaveFront};

use std::io;
use std::io::Read;

// Reads until the buffer is full or nothing is left: how many bytes now stand at its front.
pub fn read_full<R: Read>(r: &mut R, out: &mut [u8]) -> io::Result<usize>
    ensures within { IfOk result (λ n. n ≤ length out.new) }
    ensures read { IfOk result (λ n. Consumes (R.remaining r.old) (R.remaining r.new) (take n out.new)) }
    ensures whole { IfOk result (λ n. n < length out.new → IsAtEnd (R.remaining r.new)) }
    ensures failed { OnErr result (GaveFront (R.remaining r.old) (R.remaining r.new) out.new) }
{
    let mut done = 0;
    // How many bytes a read gives is the reader's to say, so no `for` fits.
    while done < out.len() {
        match r.read(&mut out[done..]) {
            Ok(0) => break,
            Ok(n) => done += n,
            Err(e) => return Err(e),
        }
    }
    Ok(done)
}
