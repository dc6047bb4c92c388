// Calls every export of `pickledune` by position, as a host does, on stored calls, and prints what came back, by position too. Promises name
// parameters, and hosts know them by their place alone: two of one type that change places in a signature, or a value that code and promise put
// into another reference, are seen here and by no proof.
//
// Standard input is a sequence of calls of 72 bytes each: eighteen numbers of 32 bits, low byte first. The first is the number of the call, 1 to
// 13 in the order of include/pickledune.h. Then come its arguments, in the order of the header, but for pointers to a table, a list, an output or
// an area, which are the program's own: of these the number of elements to lend comes, at their places; and but for references that a call only
// stores through, which hold before it what no call gives. No signed argument is below 0. The entries of a list stand behind the arguments. An
// output is the program's table, and it has one area, so that calls follow one another.
// A call prints a line: its name, what it returned, and then what each reference holds after it. Call 14 prints of the area's first words, as many as
// the next number says, those that are not 0: `PLACE:WORD` each. Another number prints `no such call`. If bytes are left that make no whole call,
// `input ends early` is the last line.
//
// The program promises only that it is safe and ends: what it prints is held to the file stdout, which tools/export_cases.py makes with the file
// stdin. It stands on `pickledune` and on `streams`.
#![tactic(auto)]

ghost use Rattle.std.specs.Prelude.{◌≤◌};

use std::io;
use std::io::Write;
use streams::word;

// What every reference holds before a call that only stores through it, and what no call ever gives.
const BEFORE: u32 = 4000000001;

const SIZE_BEFORE: usize = 4000000001;

const SIGNED_BEFORE: i32 = 1000000001;

fn size(case: &[u8], k: usize) -> usize {
    word(case, k) as usize
}

// A number as a signed one, which is not below 0.
fn signed(case: &[u8], k: usize) -> i32 {
    (word(case, k) % 2147483648) as i32
}

// As many elements as the call wants to lend, or all if there are fewer.
fn lent(case: &[u8], k: usize, all: usize) -> usize
    ensures { result ≤ all }
{
    size(case, k).min(all)
}

fn call_read_table<W: Write>(to: &mut W, case: &[u8], table: &[u8]) -> io::Result<()> {
    let end = lent(case, 1, table.len());
    let mut n = SIZE_BEFORE;
    let mut m = SIZE_BEFORE;
    let number = pickledune::pickledune_read_table(&table[..end], &mut n, &mut m);
    write!(to, "read_table {number} {n} {m}")
}

fn call_write_table<W: Write>(to: &mut W, case: &[u8], table: &mut [u8]) -> io::Result<()> {
    let mut list = [0u16; 14];
    for (k, entry) in list.iter_mut().enumerate() {
        *entry = (word(case, 4 + k) % 65536) as u16;
    }
    let entries = lent(case, 2, 14);
    let end = lent(case, 3, table.len());
    let mut length = SIZE_BEFORE;
    let number = pickledune::pickledune_write_table(
        size(case, 1),
        &list[..entries],
        &mut table[..end],
        &mut length,
    );
    write!(to, "write_table {number} {length}")
}

fn call_open<W: Write>(to: &mut W, case: &[u8], table: &[u8]) -> io::Result<()> {
    let end = lent(case, 1, table.len());
    let mut arc = SIZE_BEFORE;
    let number = pickledune::pickledune_open(&table[..end], word(case, 2), size(case, 3), &mut arc);
    write!(to, "open {number} {arc}")
}

fn call_next<W: Write>(to: &mut W, case: &[u8], table: &[u8]) -> io::Result<()> {
    let end = lent(case, 1, table.len());
    let next = pickledune::pickledune_next(&table[..end], word(case, 2), size(case, 3));
    write!(to, "next {next}")
}

fn call_start<W: Write>(to: &mut W, case: &[u8], table: &[u8], area: &mut [i32]) -> io::Result<()> {
    let end = lent(case, 1, table.len());
    let words = lent(case, 4, area.len());
    let number = pickledune::pickledune_start(
        &table[..end],
        size(case, 2),
        size(case, 3),
        &mut area[..words],
    );
    write!(to, "start {number}")
}

fn call_pick<W: Write>(to: &mut W, case: &[u8], area: &mut [i32]) -> io::Result<()> {
    let words = lent(case, 1, area.len());
    let mut kind = BEFORE;
    let mut count = SIGNED_BEFORE;
    let mut second = SIGNED_BEFORE;
    let number = pickledune::pickledune_pick(
        &mut area[..words],
        size(case, 2),
        size(case, 3),
        size(case, 4),
        &mut kind,
        &mut count,
        &mut second,
    );
    write!(to, "pick {number} {kind} {count} {second}")
}

fn call_run_on<W: Write>(to: &mut W, case: &[u8], area: &mut [i32]) -> io::Result<()> {
    let words = lent(case, 1, area.len());
    let mut over = BEFORE;
    let mut made = BEFORE;
    let number = pickledune::pickledune_run_on(
        &mut area[..words],
        word(case, 2),
        &mut over,
        &mut made,
    );
    write!(to, "run_on {number} {over} {made}")
}

fn call_run_shuffled<W: Write>(to: &mut W, case: &[u8], area: &mut [i32]) -> io::Result<()> {
    let words = lent(case, 1, area.len());
    let mut over = BEFORE;
    let mut made = BEFORE;
    let number = pickledune::pickledune_run_shuffled(
        &mut area[..words],
        word(case, 2),
        word(case, 3),
        &mut over,
        &mut made,
    );
    write!(to, "run_shuffled {number} {over} {made}")
}

fn call_report<W: Write>(to: &mut W, case: &[u8], area: &[i32]) -> io::Result<()> {
    let words = lent(case, 1, area.len());
    let mut deliveries = BEFORE;
    let mut knot = BEFORE;
    let mut outside = SIGNED_BEFORE;
    let mut escape = BEFORE;
    let mut returned = BEFORE;
    let number = pickledune::pickledune_report(
        &area[..words],
        &mut deliveries,
        &mut knot,
        &mut outside,
        &mut escape,
        &mut returned,
    );
    write!(
        to,
        "report {number} {deliveries} {knot} {outside} {escape} {returned}"
    )
}

// Stays: the C interface stores each value through a reference of its own, so what goes together is printed value by value.
fn call_read_record<W: Write>(to: &mut W, case: &[u8], area: &[i32]) -> io::Result<()> {
    let words = lent(case, 1, area.len());
    let mut succeeding = BEFORE;
    let mut preceding = BEFORE;
    let mut subordinate = BEFORE;
    let mut cs = SIGNED_BEFORE;
    let mut num = BEFORE;
    let mut father = BEFORE;
    let mut second = SIGNED_BEFORE;
    let number = pickledune::pickledune_read_record(
        &area[..words],
        size(case, 2),
        &mut succeeding,
        &mut preceding,
        &mut subordinate,
        &mut cs,
        &mut num,
        &mut father,
        &mut second,
    );
    write!(
        to,
        "read_record {number} {succeeding} {preceding} {subordinate} {cs} {num} {father} {second}"
    )
}

fn call_step<W: Write>(to: &mut W, case: &[u8]) -> io::Result<()> {
    let mut succeeding = word(case, 1);
    let mut preceding = word(case, 2);
    let mut subordinate = word(case, 3);
    let mut cs = signed(case, 4);
    let mut num = word(case, 5);
    let mut father = word(case, 6);
    let mut second = signed(case, 7);
    let mut probes = BEFORE;
    let mut reply_to = BEFORE;
    let mut reply_count = SIGNED_BEFORE;
    let mut reply_second = SIGNED_BEFORE;
    let number = pickledune::pickledune_step(
        &mut succeeding,
        &mut preceding,
        &mut subordinate,
        &mut cs,
        &mut num,
        &mut father,
        &mut second,
        word(case, 8),
        signed(case, 9),
        signed(case, 10),
        word(case, 11),
        word(case, 12),
        word(case, 13),
        &mut probes,
        &mut reply_to,
        &mut reply_count,
        &mut reply_second,
    );
    write!(
        to,
        "step {number} {succeeding} {preceding} {subordinate} {cs} {num} {father} {second}"
    )?;
    write!(to, " {probes} {reply_to} {reply_count} {reply_second}")
}

// The words of the area that are not 0.
fn call_words<W: Write>(to: &mut W, case: &[u8], area: &[i32]) -> io::Result<()> {
    let words = lent(case, 1, area.len());
    write!(to, "words")?;
    for (place, word) in area[..words].iter().enumerate() {
        if *word != 0 {
            write!(to, " {place}:{word}")?;
        }
    }
    Ok(())
}

fn make_call<W: Write>(
    to: &mut W,
    case: &[u8],
    table: &mut [u8],
    area: &mut [i32],
) -> io::Result<()> {
    // Stays: the input names a call by its number, which may not change, so the numbers stand here.
    match word(case, 0) {
        1 => write!(to, "version {}", pickledune::pickledune_version()),
        2 => write!(to, "layout {}", pickledune::pickledune_layout()),
        3 => call_read_table(to, case, table),
        4 => call_write_table(to, case, table),
        5 => call_open(to, case, table),
        6 => call_next(to, case, table),
        7 => call_start(to, case, table, area),
        8 => call_pick(to, case, area),
        9 => call_run_on(to, case, area),
        10 => call_run_shuffled(to, case, area),
        11 => call_report(to, case, area),
        12 => call_read_record(to, case, area),
        13 => call_step(to, case),
        14 => call_words(to, case, area),
        _ => write!(to, "no such call"),
    }?;
    writeln!(to)
}

fn main(rt: HostRuntime) -> io::Result<()> {
    let mut from = rt.reader();
    let mut to = io::writer(&rt);
    let mut table = [0u8; 96];
    let mut area = [0i32; 256];
    let mut case = [0u8; 72];
    streams::each_case(|_| {
        let is_call = streams::next_case(&mut from, &mut to, &mut case)?;
        if is_call {
            make_call(&mut to, &case, &mut table, &mut area)?;
        }
        Ok(is_call)
    })
}
