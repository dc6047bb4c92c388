// The answers of the calls on a run, each compared with what the search expects.
use crate::Expected;
use crate::faults::{Fault, expect};
use checks::{Mark, Report, Verdict};
use machine::{Halted, Ran};
use ordering::{Course, Order, Pick};
use refusals::Refusal;
use searching::Found;
use steps::{Message, Process, TwoCounts};

// A report is refused with 26 while fewer than D deliveries are made, and then says D.
fn is_told(report: Result<Report, Refusal>, c: &Course) -> bool {
    match report {
        Ok(report) => c.made == c.due && report.deliveries == c.due,
        Err(refusal) => c.made < c.due && refusal == Refusal::NotOver,
    }
}

// After a report at any time.
pub fn reported(report: Result<Report, Refusal>, c: &Course) -> Result<(), Fault> {
    expect(is_told(report, c), Fault::Over)
}

// Whether a second sum or count can be: in cs's range, and never below 0 in a run made by start and deliveries (02, N3).
fn is_second(second: i32) -> bool {
    (0..=128).contains(&second)
}

// Counts that an acknowledgement can carry: in range, and 0 from the start, which passes nothing on.
fn are_counts(counts: TwoCounts, from_start: bool) -> bool {
    if from_start {
        counts == TwoCounts::default()
    } else {
        (-128..=128).contains(&counts.count) && is_second(counts.second)
    }
}

// A pick, with what the search found and how the run stood before it.
#[derive(Clone, Copy)]
struct Tried<'a> {
    found: &'a Found,
    pick: Pick,
    course: &'a Course,
}

impl Tried<'_> {
    // What it is refused with, if it is: 25 for no link, 23 if all deliveries are made, else 24 or, past that, 31.
    fn refusal(self) -> Refusal {
        if !self.found.is_link(self.pick.from, self.pick.to) {
            Refusal::NoLink
        } else if self.course.made == self.course.due {
            Refusal::Over
        } else {
            Refusal::NoMessage
        }
    }

    // A message that can be on its link: a suc along a wait, a pre against one, an acknowledgement with counts that can be.
    fn is_message(self, message: Message) -> bool {
        let Pick { from, to, .. } = self.pick;
        match message {
            Message::Suc => self.found.is_wait(from, to),
            Message::Pre => self.found.is_wait(to, from),
            Message::Ack(counts) => are_counts(counts, from == self.course.start),
        }
    }

    // If it could be refused with 24 it is, unless a message is known to wait on its link, or with 31, unless its place is 1 (02, N5).
    fn is_refused(self, given: Refusal) -> bool {
        let expected = self.refusal();
        if expected != Refusal::NoMessage {
            return given == expected;
        }
        match given {
            Refusal::NoMessage => self.pick.own.is_none() || self.course.lower == 0,
            Refusal::Place => self.pick.place != 1,
            _ => false,
        }
    }

    // It may deliver a message, from a place that a link has.
    fn is_picked(self, answer: Result<Message, Refusal>) -> bool {
        match answer {
            Ok(message) => {
                self.refusal() == Refusal::NoMessage
                    && (1..=4).contains(&self.pick.place)
                    && self.is_message(message)
            }
            Err(given) => self.is_refused(given),
        }
    }

    // The message at its place before the first delivery, if there is one: "s sends suc to each successor, then pre to each predecessor". A link
    // from another process is empty.
    fn first_message(self) -> Option<Message> {
        let Pick {
            from,
            to,
            place,
            ..
        } = self.pick;
        let suc = from == self.course.start && self.found.is_wait(from, to);
        let pre = from == self.course.start && self.found.is_wait(to, from);
        match place {
            1 if suc => Some(Message::Suc),
            1 if pre => Some(Message::Pre),
            2 if suc && pre => Some(Message::Pre),
            _ => None,
        }
    }

    // Whether it took what the start sent, if it came before the first delivery.
    fn is_sent(self, answer: Result<Message, Refusal>) -> bool {
        self.course.made > 0 || answer.ok() == self.first_message()
    }
}

// How many places are below that of the order's own pick, 0 below place 1 and for another pick.
fn lower(pick: Pick) -> usize {
    if pick.own.is_some() {
        pick.place.saturating_sub(1)
    } else {
        0
    }
}

// A pick was refused: with 31, a lower place of the link holds a message.
fn missed(pick: Pick, given: Refusal, c: &mut Course) {
    c.misses = c.misses.saturating_add(1);
    c.lower = if given == Refusal::Place {
        lower(pick)
    } else {
        0
    };
}

// A message came to a receiver; those at lower places still wait.
fn delivered(pick: Pick, message: Message, c: &mut Course) {
    c.made = c.made.saturating_add(1);
    c.overtaking = c.overtaking.saturating_add(u32::from(pick.place > 1));
    c.misses = 0;
    c.lower = lower(pick);
    c.receiver = pick.to;
    match message {
        Message::Suc => c.sucs = c.sucs.saturating_add(1),
        Message::Pre => c.pres = c.pres.saturating_add(1),
        Message::Ack(_) => {}
    }
}

// After a pick of any two numbers and any place.
pub fn picked(
    found: &Found,
    pick: Pick,
    answer: Result<Message, Refusal>,
    c: &mut Course,
) -> Result<(), Fault> {
    let tried = Tried {
        found,
        pick,
        course: c,
    };
    let right = tried.is_picked(answer) && tried.is_sent(answer);
    match answer {
        Ok(message) => delivered(pick, message, c),
        Err(given) => missed(pick, given, c),
    }
    expect(right, Fault::Pick)
}

// The deliveries that are left.
fn left(c: &Course) -> u32 {
    c.due.saturating_sub(c.made)
}

// Over with all that were left, or spent with k.
fn is_run(answer: Result<Ran, Halted>, k: u32, left: u32) -> bool {
    match answer {
        Ok(Ran::Over(made)) => made == left && left <= k,
        Ok(Ran::Spent(made)) => made == k && k < left,
        Err(_) => false,
    }
}

// After running on by at most k, in either order.
pub fn ran(k: u32, answer: Result<Ran, Halted>, c: &mut Course) -> Result<(), Fault> {
    let left = left(c);
    c.made = c.made.saturating_add(left.min(k));
    c.lower = 0;
    expect(is_run(answer, k, left), Fault::RunningOn)
}

// After running on with a seed: "It refuses seed 0 with 37", also where the run is over (02, N13).
pub fn ran_shuffled(
    k: u32,
    seed: u32,
    answer: Result<Ran, Halted>,
    c: &mut Course,
) -> Result<(), Fault> {
    if seed == 0 {
        return expect(answer == Err(Halted::from(Refusal::Seed)), Fault::Seed);
    }
    c.shuffled = c.shuffled.saturating_add(left(c).min(k));
    ran(k, answer, c)
}

// Flags, and "subordinate is 1 if succeeding and not preceding".
fn are_flags(x: Process) -> bool {
    x.succeeding < 2
        && x.preceding < 2
        && x.subordinate == u32::from(x.succeeding == 1 && x.preceding == 0)
}

// A record is found exactly for the processes, and what holds of every record holds of it; 25 for other numbers.
fn is_read(answer: Result<Process, Refusal>, process: bool) -> bool {
    match answer {
        Ok(x) => process && is_second(x.second) && are_flags(x),
        Err(refusal) => !process && refusal == Refusal::NoLink,
    }
}

// After reading the record of any number, with N.
pub fn read(n: usize, p: usize, answer: Result<Process, Refusal>) -> Result<(), Fault> {
    expect(is_read(answer, (1..=n).contains(&p)), Fault::Record)
}

// After the report of the end. But for the verdict and the mark it is what the search found, escape exactly its number (02, N1). "Verdicts are
// judged by the edition named at start" (02, N4); "a payment is returned exactly if every process reachable from the start, itself included,
// waits for somebody" (02, N3).
pub fn last_reported(
    report: Result<Report, Refusal>,
    e: &Expected,
    c: &Course,
) -> Result<(), Fault> {
    let report = report.or(Err(Fault::Report))?;
    let told = report.deliveries == c.due && report.outside == e.outside;
    expect(told && report.escape == e.escape, Fault::Report)?;
    expect(
        (report.verdict == Verdict::Knot) == e.is_knot(),
        Fault::Verdict,
    )?;
    expect(
        (report.mark == Mark::Returned) == (e.idlers == 0),
        Fault::Mark,
    )
}

// The sums of p at the end: "cs 0, but the start's cs is outside"; the second sum "0 everywhere but at the start, which has the number of such
// processes" (02, N3)
fn are_last_sums(x: Process, e: &Expected, p: usize) -> bool {
    if p == e.start {
        x.cs == e.outside && x.second == e.idlers
    } else {
        x.cs == 0 && x.second == 0
    }
}

// The flags and num of p at the end; father is left open.
fn is_last(x: Process, found: &Found, p: usize) -> bool {
    x.succeeding == u32::from(found.is_after(p))
        && x.preceding == u32::from(found.is_before(p))
        && x.subordinate == u32::from(found.is_outsider(p))
        && x.num == 0
}

// The record of p at the end.
pub fn is_last_record(
    answer: Result<Process, Refusal>,
    found: &Found,
    e: &Expected,
    p: usize,
) -> bool {
    answer.is_ok_and(|x| is_last(x, found, p) && are_last_sums(x, e, p))
}

// If picks made every delivery, they delivered as many sucs and pres as there are waits to send them along.
pub fn are_all_probes(e: &Expected, order: Order, c: &Course) -> bool {
    !order.is_by_picks() || c.sucs == e.sucs && c.pres == e.pres
}
