// One run of a case, from its start to its end, with every call compared with what the plain search expects (the crate `expecting`), for
// the program `trials`. It calls the library as a host does: `starting`, `picks`, `runs`, `reports` and `record_reading`. It promises only
// that it is safe and ends; a difference is an answer. The module `written` compares how a table is read back. Which words a call changes,
// and what it makes of areas that no run leaves, is compared in hosts/rust/compare, with a plain Rust and word for word.
#![tactic(auto)]

pub mod written;

use expecting::faults::{Fault, expect};
use expecting::{Expected, answers, starts, words};
use ordering::{Call, Course, Order, Way};
use searching::Found;

// Far more turns than a run takes.
const TURNS: u32 = 100000000;

// A case that was searched: its table, the list of its waits, what the search found, and what it expects of a run.
#[derive(Clone, Copy)]
pub struct Searched<'a> {
    pub table: &'a [u8],
    pub list: &'a [u16],
    pub found: &'a Found,
    pub expected: Expected,
}

// Makes a call, with N.
fn make(
    area: &mut [i32],
    found: &Found,
    n: usize,
    call: Call,
    c: &mut Course,
) -> Result<(), Fault> {
    match call {
        Call::Pick(pick) => {
            let answer = picks::picking::pick(area, pick.from, pick.to, pick.place);
            answers::picked(found, pick, answer, c)
        }
        Call::RunOn { k } => answers::ran(k, runs::running::run_on(area, k), c),
        Call::RunShuffled { k, seed } => {
            answers::ran_shuffled(k, seed, runs::shuffled::run_shuffled(area, k, seed), c)
        }
        Call::Read { p } => answers::read(n, p, record_reading::read_record(area, p)),
    }
}

// Whether a report says that the run is over exactly if A is D.
fn probe(area: &[i32], c: &Course) -> Result<(), Fault> {
    answers::reported(reports::report(area), c)
}

// The digest of an area before a call that is watched.
fn digest(area: &[i32], c: &Course) -> Option<u64> {
    if c.is_watched(area.len()) {
        Some(words::digest(area))
    } else {
        None
    }
}

// After a call, with A and the digest before it. If it delivered, a report says whether the run is over. If not and it is watched, it
// changed no word, and a report says the same as before.
fn settle(area: &[i32], before: Option<u64>, made: u32, c: &Course) -> Result<(), Fault> {
    if c.made == made {
        let Some(before) = before else {
            return Ok(());
        };
        expect(words::digest(area) == before, Fault::Changed)?;
    }
    probe(area, c)
}

// One call, and what is looked at after it.
fn turn(area: &mut [i32], found: &Found, way: Way<'_>, c: &mut Course) -> Result<(), Fault> {
    c.draw();
    let call = way.next_call(c);
    c.choose(call);
    let before = digest(area, c);
    let made = c.made;
    make(area, found, way.n, call, c)?;
    settle(area, before, made, c)
}

// Brings a run to its end, or makes the calls past it, which are refused or make nothing.
fn drive(area: &mut [i32], found: &Found, way: Way<'_>, c: &mut Course) -> Result<(), Fault> {
    for _ in 0..TURNS {
        if way.is_done(c) {
            break;
        }
        turn(area, found, way, c)?;
    }
    Ok(())
}

// Whether every record is that of the end.
fn are_last(area: &[i32], found: &Found, e: &Expected) -> bool {
    (1..=usize::from(e.n)).all(|p| answers::is_last_record(
        record_reading::read_record(area, p),
        found,
        e,
        p,
    ))
}

// The end of a run compared (01, "The end of a check"), and the surplus words.
fn compare(
    area: &[i32],
    found: &Found,
    e: &Expected,
    order: Order,
    c: &Course,
) -> Result<(), Fault> {
    expect(c.made == c.due, Fault::Still)?;
    answers::last_reported(reports::report(area), e, c)?;
    expect(are_last(area, found, e), Fault::LastRecord)?;
    expect(answers::are_all_probes(e, order, c), Fault::Probes)?;
    expect(words::is_marked(area, e.needed()), Fault::Surplus)
}

// One run in an order, on a course that has not begun, and the calls past its end. The end is compared before and after these. Words past
// those that a start needs are surplus. At a difference the course stays as it was there.
pub fn run(
    area: &mut [i32],
    case: &Searched<'_>,
    order: Order,
    c: &mut Course,
) -> Result<(), Fault> {
    let e = &case.expected;
    let found = case.found;
    let way = Way::new(case.list, usize::from(e.n), order, c.seed);
    starts::begin(area, case.table, e, c.seed)?;
    probe(area, c)?;
    drive(area, found, way, c)?;
    compare(area, found, e, order, c)?;
    c.end();
    drive(area, found, way, c)?;
    compare(area, found, e, order, c)
}
