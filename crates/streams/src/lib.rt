// Reading and writing bytes, over any reader and any writer of std. Where a reader or a writer says which bytes it has left or holds, the
// promises speak of them; standard input and output do not, and of these they say nothing.
#![tactic(auto)]

ghost use Rattle.std.specs.Prelude.{◌≡◌, ◌≤◌, ◌<◌, length, take, IfOk, OnOk, IfSome, IsTrue, IsFalse, true, false};
ghost use Rattle.std.specs.Fmt.{decimal};
ghost use Rattle.std.specs.Io.KnownBytes.{Appends, Consumes, IsAtEnd};
ghost use Rattle.streams.specs.Cases.{word_at, StepsTaken};

use std::io;
use std::io::{Read, Write};

// Writes the whole text, or fails.
pub fn print<W: Write>(to: &mut W, text: &[u8]) -> io::Result<()>
    ensures { OnOk result (Appends (W.contents to.old) (W.contents to.new) text.now) }
{
    to.write_all(text)
}

// Writes a number in decimal digits, or fails.
// Stays: README says of this crate that it prints text and numbers.
pub fn print_number<W: Write>(to: &mut W, n: u64) -> io::Result<()>
    ensures { OnOk result (Appends (W.contents to.old) (W.contents to.new) (decimal n)) }
{
    write!(to, "{n}")
}

// Reads until the bytes are full or the input ends, and gives how many bytes were put at their front; or fails.
pub fn read_full<R: Read>(from: &mut R, bytes: &mut [u8]) -> io::Result<usize>
    ensures within { IfOk result (λ n. n ≤ length bytes.new) }
    ensures taken { IfOk result (λ n. Consumes (R.remaining from.old) (R.remaining from.new) (take n bytes.new)) }
    ensures ended { IfOk result (λ n. n < length bytes.new → IsAtEnd (R.remaining from.new)) }
{
    let mut done = 0;
    while done < bytes.len() {
        let got = from.read(&mut bytes[done..])?;
        if got == 0 {
            return Ok(done);
        }
        done += got;
    }
    Ok(done)
}

// Whether so many bytes that were read fill a case or its rest. If not, the input ends early, and a last line says so.
fn fills<W: Write>(to: &mut W, got: usize, bytes: &[u8]) -> io::Result<bool>
    ensures whole { IfOk result (λ whole. whole ≡ true → got ≡ length bytes.now) }
    ensures silent { IfOk result (λ whole. whole ≡ true → to.new ≡ to.old) }
    ensures early { IfOk result (λ whole. whole ≡ false → (got ≡ length bytes.now) → ⊥) }
{
    let whole = got == bytes.len();
    if !whole {
        print(to, b"input ends early\n")?;
    }
    Ok(whole)
}

// Fills the bytes with what follows a heading, and gives whether it did. If the input ends before, a last line says so.
pub fn rest_of_case<R: Read, W: Write>(
    from: &mut R,
    to: &mut W,
    rest: &mut [u8],
) -> io::Result<bool>
    ensures whole { IfOk result (λ whole. whole ≡ true → Consumes (R.remaining from.old) (R.remaining from.new) rest.new) }
    ensures silent { IfOk result (λ whole. whole ≡ true → to.new ≡ to.old) }
    ensures ended { IfOk result (λ whole. whole ≡ false → IsAtEnd (R.remaining from.new)) }
{
    let got = read_full(from, rest)?;
    fills(to, got, rest)
}

// Fills the bytes with the next case of the input, or with its heading, and gives whether it did: not at the input's end. If bytes are left that fill
// none, a last line says so.
pub fn next_case<R: Read, W: Write>(from: &mut R, to: &mut W, case: &mut [u8]) -> io::Result<bool>
    ensures whole { IfOk result (λ whole. whole ≡ true → Consumes (R.remaining from.old) (R.remaining from.new) case.new) }
    ensures silent { IfOk result (λ whole. whole ≡ true → to.new ≡ to.old) }
    ensures ended { IfOk result (λ whole. whole ≡ false → IsAtEnd (R.remaining from.new)) }
{
    let got = read_full(from, case)?;
    if got == 0 {
        return Ok(case.is_empty());
    }
    fills(to, got, case)
}

// Takes one step after another, which counts them from 1, until one says that it was the last. Nothing says that an input ends, so the count has a
// last number, which no run comes to.
pub fn each_case<F: FnMut(u64) -> io::Result<bool>>(mut step: F) -> io::Result<()>
    requires { F.IsAlwaysCallable step }
    ensures { StepsTaken (λ f k x g. F.step f k x g) step 1 result }
{
    'steps: for k in 1..=u64::MAX {
        if !step(k)? {
            break 'steps;
        }
    }
    Ok(())
}

// Word k of a case, counted from 0, of four bytes, low byte first; 0 if the case has no such word.
pub fn word(case: &[u8], k: usize) -> u32
    ensures { result ≡ word_at case.now k }
{
    let (words, _) = case.as_chunks();
    words.get(k).map_or(0, |bytes| u32::from_le_bytes(*bytes))
}
