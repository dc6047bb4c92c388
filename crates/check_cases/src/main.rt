// Runs stored inputs of the check program and prints for each what the program prints, after a line `case K`.
//
// Standard input is a sequence of cases. A case is 16 bits for its number of bytes, unsigned, low byte first, then those bytes, which are
// one input of the check program. If bytes are left that make no whole case, `input ends early` is the last line.
//
// The program promises only that it is safe and ends: what it prints is held to the file stdout, which tools/check_cases.py makes with
// the file stdin.
#![tactic(auto)]

use std::io;
use std::io::{Read, Write};

// Case k, of so many bytes; gives whether it was whole and its answer came out. The bytes stand in a function of their own: behind a return of the same
// function they would be cleared twice.
fn run_case<R: Read, W: Write>(from: &mut R, to: &mut W, k: u64, length: u16) -> io::Result<bool> {
    let mut bytes = [0u8; 65536];
    let input = &mut bytes[..usize::from(length)];
    if !streams::rest_of_case(from, to, input)? {
        return Ok(false);
    }
    writeln!(to, "case {k}")?;
    Ok(printing::print_check(to, input).is_ok())
}

// The next case; gives whether to go on.
fn next_case<R: Read, W: Write>(from: &mut R, to: &mut W, k: u64) -> io::Result<bool> {
    let mut heading = [0u8; 2];
    if !streams::next_case(from, to, &mut heading)? {
        return Ok(false);
    }
    run_case(from, to, k, u16::from_le_bytes(heading))
}

// Runs all cases. Nothing says that the input ends, so the loop has an end of its own, which no run reaches.
fn main(rt: HostRuntime) -> io::Result<()> {
    let mut from = rt.reader();
    let mut to = io::writer(&rt);
    for k in 1..1000000000 {
        if !next_case(&mut from, &mut to, k)? {
            break;
        }
    }
    Ok(())
}
