// Prints the walks along the chains of a table, and the steps from every arc of it, as the crate `walks` makes them.
ghost use Rattle.std.specs.Prelude.{◌≤◌};

use std::io;
use std::io::Write;
use tables::Chain;

// A walk is followed for so many steps at most; no chain of a table has so many arcs.
const LONGEST: u16 = 600;

// The most arcs from which steps are tried one by one: one more than a table may have.
const MOST: usize = 513;

// Both chains, in the order in which they are printed.
const CHAINS: [Chain; 2] = [Chain::Out, Chain::In];

// Stays: a Display would have to stand in tables, for two words that only this crate prints, and be no shorter.
fn name_of(chain: Chain) -> &'static str {
    match chain {
        Chain::Out => "out",
        Chain::In => "in",
    }
}

fn print_next<W: Write>(to: &mut W, next: Option<usize>) -> io::Result<()> {
    match next {
        Some(k) => streams::print_number(to, k as u64),
        None => streams::print(to, b"end"),
    }
}

// Prints where the walk along a chain of p stands after that many steps and what the next step gives, `ARC>NEXT`, and `!ARC` after it if
// that step leaves the walk elsewhere; gives whether the chain goes on.
fn print_step<W: Write>(
    to: &mut W,
    s: &[u8],
    chain: Chain,
    p: usize,
    steps: u16,
) -> io::Result<bool> {
    let stood = walks::stand_after(s, chain, p, steps);
    write!(to, " {}>", stood.arc)?;
    print_next(to, stood.next)?;
    if stood.next.unwrap_or(0) != stood.then {
        write!(to, "!{}", stood.then)?;
    }
    Ok(stood.next.is_some())
}

// The steps of a walk up to the end.
fn print_way<W: Write>(to: &mut W, s: &[u8], chain: Chain, p: usize) -> io::Result<()> {
    for steps in 0..LONGEST {
        if !print_step(to, s, chain, p, steps)? {
            break;
        }
    }
    Ok(())
}

// A line for the walk along a chain of p, from its opening, with its number if it was refused, to the end.
fn print_walk<W: Write>(to: &mut W, s: &[u8], chain: Chain, p: usize) -> io::Result<()> {
    write!(to, "{} {p}:", name_of(chain))?;
    let number = walks::stand_after(s, chain, p, 0).number;
    if number != 0 {
        write!(to, " refused {number}")?;
    }
    print_way(to, s, chain, p)?;
    writeln!(to)
}

// The walks along both chains of p.
pub fn print_both<W: Write>(to: &mut W, s: &[u8], p: usize) -> io::Result<()> {
    for chain in CHAINS {
        print_walk(to, s, chain, p)?;
    }
    Ok(())
}

// The same for each of n processes, for 0 and for the number after the last.
pub fn print_walks<W: Write>(to: &mut W, s: &[u8], n: usize) -> io::Result<()> {
    for p in 0..=n.saturating_add(1) {
        print_both(to, s, p)?;
    }
    Ok(())
}

// The number of arcs that the bytes say, as far as steps are tried from them.
fn arcs_said(s: &[u8]) -> usize
    ensures { result ≤ 513 }
{
    if s.len() < 4 {
        return 0;
    }
    table_reader::field(s, 1).min(MOST)
}

fn print_step_from<W: Write>(to: &mut W, s: &[u8], chain: Chain, arc: usize) -> io::Result<()> {
    write!(to, " ")?;
    print_next(to, walks::next_from(s, chain, arc))
}

// A line for what steps along a chain give: from 0, from each arc that the bytes say, from the number after the last, and from two that
// are past any bytes.
fn print_steps_from<W: Write>(to: &mut W, s: &[u8], chain: Chain) -> io::Result<()> {
    write!(to, "next {}:", name_of(chain))?;
    let after = arcs_said(s) + 1;
    for arc in 0..=after {
        print_step_from(to, s, chain, arc)?;
    }
    print_step_from(to, s, chain, 65535)?;
    print_step_from(to, s, chain, usize::MAX)?;
    writeln!(to)
}

// The same along both chains.
pub fn print_steps<W: Write>(to: &mut W, s: &[u8]) -> io::Result<()> {
    for chain in CHAINS {
        print_steps_from(to, s, chain)?;
    }
    Ok(())
}
