// Reading a whole input from a reader, so that a read that fails is told from the end of the input. Of a reader that says which bytes it has left,
// as one over memory does, the promises say that the input is the front of these, and all of them if it ended.
#![tactic(auto)]

ghost use Rattle.std.specs.Prelude.{◌≡◌, ◌≤◌, ◌<◌, length, take, drop, ◌+◌, ◌++◌, IfOk, OnErr, MatchResult};
ghost use Rattle.std.specs.Io.KnownBytes.{Consumes, IsAtEnd, Keeps};
ghost use Rattle.reading.specs.Taken.{length_of};

use std::io;
use std::io::Read;

// A read failed, behind so many bytes at the front.
#[derive(Clone, Copy, Debug)]
pub struct Failed {
    pub length: usize,
    pub error: io::Error,
}

// The most bytes that one read is lent: 20,480 and one more.
const PIECE: usize = 20_481;

// One read: what it gives goes behind the first `done` bytes, which stay, and no other byte changes; if it fails none does.
fn read_piece<R: Read>(
    from: &mut R,
    input: &mut [u8],
    done: usize,
    piece: &mut [u8],
) -> io::Result<usize>
    requires { done ≤ length input.old }
    ensures put { IfOk result (λ more. input.new ≡ take done input.old ++ take more piece.new ++ drop (done + more) input.old) }
    ensures bound { IfOk result (λ more. done + more ≤ length input.old) }
    ensures kept { OnErr result (input.new ≡ input.old) }
    ensures taken { MatchResult result (λ more. Consumes (R.remaining from.old) (R.remaining from.new) (take more piece.new)) (λ _. Keeps (R.remaining from.old) (R.remaining from.new)) }
    ensures ended { IfOk result (λ more. more ≡ 0 → done < length input.old → 0 < length piece.new → IsAtEnd (R.remaining from.new)) }
{
    let room = (input.len() - done).min(piece.len());
    let more = from.read(&mut piece[..room])?;
    input[done..done + more].copy_from_slice(&piece[..more]);
    Ok(more)
}

// Reads until the input ends, a read fails or the bytes are full.
pub fn read_input<R: Read>(from: &mut R, input: &mut [u8]) -> Result<usize, Failed>
    ensures length_in_bounds { length_of result ≤ length input.new }
    ensures taken { Consumes (R.remaining from.old) (R.remaining from.new) (take (length_of result) input.new) }
    ensures ended { IfOk result (λ n. n < length input.new → IsAtEnd (R.remaining from.new)) }
    ensures kept { drop (length_of result) input.new ≡ drop (length_of result) input.old }
{
    let mut piece = [0; PIECE];
    let mut done = 0;
    // Stays: a read gives any number of bytes, so nothing steps through them one by one.
    while done < input.len() {
        match read_piece(from, input, done, &mut piece) {
            Ok(0) => break,
            Ok(more) => done += more,
            Err(error) => {
                return Err(Failed {
                    length: done,
                    error,
                });
            }
        }
    }
    Ok(done)
}
