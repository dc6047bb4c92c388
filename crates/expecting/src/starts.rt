// How a run begins: what the search expects of it, its course, the starts that are refused, and the start.
use crate::faults::{Fault, expect};
use crate::{Expected, words};
use ordering::Course;
use refusals::Refusal;
use searching::{Edition, Found};

// A number of processes as a sum of counts.
fn signed(k: usize) -> i32 {
    i32::try_from(k).unwrap_or(i32::MAX)
}

// What the search found of a table from a start, under the first edition.
pub fn found_of(table: &[u8], found: &Found, start: usize) -> Expected {
    Expected {
        n: searching::processes(table),
        m: searching::waits(table),
        start,
        sucs: found.waits_by(),
        pres: found.waits_for(),
        outside: signed(found.outsiders()),
        escape: found.lowest_outsider().unwrap_or(0),
        idlers: signed(found.idlers()),
        first: found.is_knot(Edition::First),
        second: found.is_knot(Edition::Second),
        edition: Edition::First,
    }
}

// The course of a run that has not begun, by a random number.
pub fn course(e: &Expected, x: usize) -> Course {
    let due = e.sucs.saturating_add(e.pres).saturating_mul(2);
    Course {
        start: e.start,
        made: 0,
        due: u32::try_from(due).unwrap_or(u32::MAX),
        sucs: 0,
        pres: 0,
        overtaking: 0,
        shuffled: 0,
        seed: x,
        link: x / 8,
        lower: 0,
        receiver: e.start,
        misses: 0,
        past: None,
    }
}

// A start that is to be refused: where, under which edition, in how many words, and why; and the difference if it is not.
#[derive(Clone, Copy)]
struct WrongStart {
    start: usize,
    edition: usize,
    words: usize,
    refusal: Refusal,
    fault: Fault,
}

// The starts that are to be refused, in an area of so many words: at no process, in one word too few, and under a number that is no edition,
// which is refused "with 30, after 8 and before 9" (02, N4).
fn wrong_starts(e: &Expected, none: usize, all: usize) -> [WrongStart; 6] {
    let at_none = WrongStart {
        start: 0,
        edition: e.edition as usize,
        words: all,
        refusal: Refusal::Process,
        fault: Fault::RefusedStart,
    };
    let short = WrongStart {
        start: e.start,
        words: e.needed() - 1,
        refusal: Refusal::AreaShort,
        ..at_none
    };
    let under_none = WrongStart {
        start: e.start,
        edition: none,
        words: all,
        refusal: Refusal::Edition,
        fault: Fault::RefusedEdition,
    };
    [
        at_none,
        WrongStart {
            start: usize::from(e.n) + 1,
            ..at_none
        },
        short,
        WrongStart {
            start: 0,
            refusal: Refusal::Process,
            ..under_none
        },
        under_none,
        WrongStart {
            words: e.needed() - 1,
            ..under_none
        },
    ]
}

// A number that is no edition, by a random number. Cut to 16 or to 32 bits two of these would be.
fn no_edition(x: usize) -> usize {
    match x % 5 {
        1 => 3,
        2 => 65535,
        3 => 65537,
        4 => 4294967298,
        _ => 0,
    }
}

// Whether a start is refused as it is to be.
fn is_refused(area: &mut [i32], table: &[u8], wrong: WrongStart) -> bool {
    match area.get_mut(..wrong.words) {
        Some(words) => {
            starting::start(table, wrong.start, wrong.edition, words) == Err(wrong.refusal)
        }
        None => false,
    }
}

// In words that hold the mark, the starts that are refused and change none, then the start, by a random number.
pub fn begin(area: &mut [i32], table: &[u8], e: &Expected, x: usize) -> Result<(), Fault> {
    words::fill(area);
    for wrong in wrong_starts(e, no_edition(x), area.len()) {
        expect(is_refused(area, table, wrong), wrong.fault)?;
    }
    expect(words::is_marked(area, 0), Fault::Changed)?;
    let answer = starting::start(table, e.start, e.edition as usize, area);
    expect(answer.is_ok(), Fault::Start)
}
