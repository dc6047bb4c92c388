// Runs stored cases of one process's step on a record that is lent (01, "Steps") through the crate `lending`, and prints what each gives.
//
// Standard input is a sequence of cases of 52 bytes each: thirteen numbers of 32 bits, low byte first. Seven are the record: succeeding,
// preceding, subordinate, cs, num, father and the second sum. Three are the message: its kind, 1 for a suc probe, 2 for a pre probe and 3
// for an acknowledgement, its count and its second count. The last are the out-degree, the in-degree and the sender. The sums and the
// counts are signed.
// A case prints a line: the number of the answer, 0 if the step was taken; the seven values of the record afterwards; the probes to
// broadcast, `suc`, `pre` or `none`; and the acknowledgement to send, `ack TO COUNT SECOND` or `none`. A case of another kind prints
// `no such case`. If bytes are left that make no whole case, `input ends early` is the last line.
//
// The program promises only that it is safe and ends: what it prints is held to the file stdout, which tools/step_cases.py makes with the
// file stdin. It stands on `lending`, `steps`, `refusals`, and on `streams`.
#![tactic(auto)]

use lending::Outcome;
use std::io;
use std::io::{Read, Write};
use steps::{Message, Probes, Process, Reply, Sent, TwoCounts};
use streams::word;

// Number k of a case as a signed number.
fn signed(case: &[u8], k: usize) -> i32 {
    word(case, k).cast_signed()
}

fn print_process<W: Write>(to: &mut W, process: Process) -> io::Result<()> {
    let Process {
        succeeding,
        preceding,
        subordinate,
        cs,
        num,
        father,
        second,
    } = process;
    write!(
        to,
        " {succeeding} {preceding} {subordinate} {cs} {num} {father} {second}"
    )
}

// What a step sends, to the line's end.
fn print_sent<W: Write>(to: &mut W, sent: Sent) -> io::Result<()> {
    // Stays: a Display would have to stand in steps, for these three words of one program, and be no shorter.
    let probes = match sent.probes {
        Probes::Nothing => "none",
        Probes::Sucs => "suc",
        Probes::Pres => "pre",
    };
    match sent.reply {
        None => writeln!(to, " {probes} none"),
        Some(
            Reply {
                to: receiver,
                counts: TwoCounts { count, second },
            },
        ) => writeln!(to, " {probes} ack {receiver} {count} {second}"),
    }
}

// The line of a case.
fn print_outcome<W: Write>(to: &mut W, outcome: Outcome) -> io::Result<()> {
    match outcome.answer {
        Ok(sent) => {
            write!(to, "0")?;
            print_process(to, outcome.process)?;
            print_sent(to, sent)
        }
        Err(refusal) => {
            write!(to, "{}", u32::from(refusal))?;
            print_process(to, outcome.process)?;
            writeln!(to, " none none")
        }
    }
}

fn record_of(case: &[u8]) -> Process {
    Process {
        succeeding: word(case, 0),
        preceding: word(case, 1),
        subordinate: word(case, 2),
        cs: signed(case, 3),
        num: word(case, 4),
        father: word(case, 5),
        second: signed(case, 6),
    }
}

// The message of a case, if its kind is one.
// Stays: that of host_values gives a count out of range for another kind, as the C interface needs; told from a count of the case it would take more.
fn message_of(case: &[u8]) -> Option<Message> {
    match word(case, 7) {
        1 => Some(Message::Suc),
        2 => Some(Message::Pre),
        3 => Some(Message::Ack(TwoCounts {
            count: signed(case, 8),
            second: signed(case, 9),
        })),
        _ => None,
    }
}

// Lends the record of the case with its message.
fn run_case<W: Write>(to: &mut W, case: &[u8]) -> io::Result<()> {
    let Some(message) = message_of(case) else {
        return writeln!(to, "no such case");
    };
    print_outcome(
        to,
        lending::lend(
            record_of(case),
            message,
            word(case, 10),
            word(case, 11),
            word(case, 12),
        ),
    )
}

fn main(rt: HostRuntime) -> io::Result<()> {
    let mut from = rt.reader();
    let mut to = io::writer(&rt);
    let mut case = [0u8; 52];
    streams::each_case(|_| {
        let is_case = streams::next_case(&mut from, &mut to, &mut case)?;
        if is_case {
            run_case(&mut to, &case)?;
        }
        Ok(is_case)
    })
}
