// Runs vectors of wait tables (01, "Wait table") through the crates `table_reader`, `table_writer` and `walks` and prints what they answer.
//
// Standard input is a sequence of cases. A case is a byte for its kind, then 16 bits for the number of its bytes, then those bytes.
// Every 16 bits are unsigned, low byte first.
//   R  the bytes are read as a table. It prints `read accepted N M`, or `read refused NUMBER`. Then the chains are walked: for the processes
//      0 to N + 1 of an accepted table, and for process 1 of a refused one, a line `out P:` and a line `in P:` with `refused NUMBER` if
//      the opening was refused, and `ARC>NEXT` for each step up to the end: the arc that the walk stands at and what the step gives,
//      `end` at the end. Last `next out:` and `next in:`, what a step gives from each arc number 0 to M + 1, from 65535 and from the
//      largest number, M being what the bytes say, but at most 513.
//   W  the bytes are N, the output's length in bytes and the entries of a list, 16 bits each. The table is written into an output of
//      that length that holds the mark 165 throughout. It prints `write refused NUMBER`, or `write LENGTH` with the table's length,
//      and then, on the same line, `kept` if every byte of the output that must keep its value still holds the mark, else `changed`.
//      A written table is read back, `read accepted N M`; if it has at most 16 arcs there is a line `arc K: FROM TO` for each, and its
//      chains are walked as by R; and `sum NUMBER` is the Adler-32 of the whole output.
// A whole case of another kind, or a W whose bytes are odd in number or under 4, prints `no such case`. If bytes are left that make
// no whole case, `input ends early` is the last line. No case is refused for its length: any 16 bits will do.
//
// The program promises only that it is safe and ends: what it prints is held to the file stdout, which tools/table_vectors.py makes
// with the file stdin. It stands on those three, on `walk_output`, which prints the walks, and on `streams`.
#![tactic(auto)]

ghost use Rattle.std.specs.Prelude.{◌≤◌, length};

use refusals::Refusal;
use std::io;
use std::io::{Read, Write};
use tables::Sizes;
use walk_output::walking::{print_both, print_steps, print_walks};

// What every byte of an output holds before a table is written into it.
const MARK: u8 = 165;

// The most arcs that are printed one by one.
const FEW: usize = 16;

// The entries in the bytes, put at the front of the list, as many as it holds; gives their number.
fn entries(s: &[u8], list: &mut [u16]) -> usize
    ensures { result ≤ length list.new }
{
    let (pairs, _) = s.as_chunks::<2>();
    for (entry, pair) in list.iter_mut().zip(pairs) {
        *entry = u16::from_le_bytes(*pair);
    }
    pairs.len().min(list.len())
}

// Whether every byte still holds the mark.
fn is_kept(s: &[u8]) -> bool {
    s.iter().all(|byte| *byte == MARK)
}

// The Adler-32 of the bytes.
fn checksum(s: &[u8]) -> u64 {
    let mut a: u64 = 1;
    let mut b: u64 = 0;
    for byte in s {
        a = (a + u64::from(*byte)) % 65521;
        b = (b + a) % 65521;
    }
    65536 * b + a
}

fn print_kept<W: Write>(to: &mut W, is_kept: bool) -> io::Result<()> {
    if is_kept {
        writeln!(to, " kept")
    } else {
        writeln!(to, " changed")
    }
}

// Prints the answer of reading.
fn print_answer<W: Write>(to: &mut W, answer: Result<Sizes, Refusal>) -> io::Result<()> {
    match answer {
        Ok(Sizes { n, m }) => writeln!(to, "read accepted {n} {m}"),
        Err(refusal) => writeln!(to, "read refused {}", u32::from(refusal)),
    }
}

// Prints the answer of reading the bytes, the walks along their chains and the steps from their arcs.
fn print_reading<W: Write>(to: &mut W, s: &[u8]) -> io::Result<()> {
    let answer = table_reader::read(s);
    print_answer(to, answer)?;
    match answer {
        Ok(sizes) => print_walks(to, s, sizes.n)?,
        Err(_) => print_both(to, s, 1)?,
    }
    print_steps(to, s)
}

// Prints the ends of arc k, or nothing if the bytes have no such arc.
fn print_arc<W: Write>(to: &mut W, s: &[u8], k: usize) -> io::Result<()> {
    if s.len() < 4 || k == 0 {
        return Ok(());
    }
    let up_to_it = Sizes {
        n: table_reader::field(s, 0),
        m: k,
    };
    if !up_to_it.fit() || s.len() < up_to_it.table_length() {
        return Ok(());
    }
    let arc = table_reader::arc_at(s, up_to_it.n, k);
    writeln!(to, "arc {k}: {} {}", arc.from, arc.to)
}

// Prints the table in the bytes as it is read back.
fn print_table<W: Write>(to: &mut W, s: &[u8]) -> io::Result<()> {
    let answer = table_reader::read(s);
    print_answer(to, answer)?;
    if let Ok(Sizes { n, m }) = answer
        && m <= FEW
    {
        for k in 1..=m {
            print_arc(to, s, k)?;
        }
        print_walks(to, s, n)?;
    }
    Ok(())
}

// Prints the answer of writing into the output.
fn print_writing<W: Write>(
    to: &mut W,
    answer: Result<usize, Refusal>,
    out: &[u8],
) -> io::Result<()> {
    match answer {
        Err(refusal) => {
            write!(to, "write refused {}", u32::from(refusal))?;
            print_kept(to, is_kept(out))
        }
        Ok(length) => {
            write!(to, "write {length}")?;
            if out.len() < length {
                return writeln!(to, " past the output");
            }
            print_kept(to, is_kept(&out[length..]))?;
            print_table(to, &out[..length])?;
            writeln!(to, "sum {}", checksum(out))
        }
    }
}

// Writes the table of n processes and of the list's pairs into an output of that many marks.
fn write_list<W: Write>(to: &mut W, n: usize, list: &[u16], space: u16) -> io::Result<()> {
    let mut room = [MARK; 65536];
    let out = &mut room[..usize::from(space)];
    let answer = table_writer::write(n, list, out);
    print_writing(to, answer, out)
}

fn no_such_case<W: Write>(to: &mut W) -> io::Result<()> {
    writeln!(to, "no such case")
}

fn write_case<W: Write>(to: &mut W, s: &[u8]) -> io::Result<()> {
    if s.len() < 4 || s.len() % 2 != 0 {
        return no_such_case(to);
    }
    let n = usize::from(u16::from_le_bytes([s[0], s[1]]));
    let space = u16::from_le_bytes([s[2], s[3]]);
    let mut list = [0u16; 32768];
    let count = entries(&s[4..], &mut list);
    write_list(to, n, &list[..count], space)
}

// Stays: the input names a kind by its letter, which may not change, so the letters stand here.
fn run_case<W: Write>(to: &mut W, kind: u8, s: &[u8]) -> io::Result<()> {
    match kind {
        b'R' => print_reading(to, s),
        b'W' => write_case(to, s),
        _ => no_such_case(to),
    }
}

// A case of so many bytes; gives whether it was whole. The bytes stand in a function of their own: behind a return of the same function they would be
// cleared twice.
fn read_case<R: Read, W: Write>(
    from: &mut R,
    to: &mut W,
    kind: u8,
    length: u16,
) -> io::Result<bool> {
    let mut bytes = [0u8; 65536];
    let case = &mut bytes[..usize::from(length)];
    if !streams::rest_of_case(from, to, case)? {
        return Ok(false);
    }
    run_case(to, kind, case)?;
    Ok(true)
}

// One case; gives whether to go on.
fn next_case<R: Read, W: Write>(from: &mut R, to: &mut W) -> io::Result<bool> {
    let mut heading = [0u8; 3];
    if !streams::next_case(from, to, &mut heading)? {
        return Ok(false);
    }
    let [kind, low, high] = heading;
    read_case(from, to, kind, u16::from_le_bytes([low, high]))
}

fn main(rt: HostRuntime) -> io::Result<()> {
    let mut from = rt.reader();
    let mut to = io::writer(&rt);
    streams::each_case(|_| next_case(&mut from, &mut to))
}
