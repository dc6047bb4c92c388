// The answers of a check's calls, as the values of 01 that the C interface stores, zeros elsewhere.
ghost use Rattle.std.specs.Prelude.{◌≡◌};

use checks::{Mark, Report, Verdict};
use machine::{Halted, Ran};
use refusals::Refusal;
use steps::{Message, TwoCounts};

// Of a pick: the kind of the message, 1 a suc probe, 2 a pre probe, 3 an acknowledgement, and its counts, 0 for a probe.
#[derive(Clone, Copy, PartialEq, Eq, Default)]
pub struct DeliveryValues {
    pub kind: u32,
    pub counts: TwoCounts,
}

impl From<Result<Message, Refusal>> for DeliveryValues {
    ghost use Rattle.host_values.specs.Values.{delivery_kind, delivery_counts};

    ghost from_gives = { λ answer v. (v.kind ≡ delivery_kind answer) × (v.counts ≡ delivery_counts answer) };

    fn from(answer: Result<Message, Refusal>) -> DeliveryValues {
        let (kind, counts) = match answer {
            Ok(Message::Suc) => (1, TwoCounts::default()),
            Ok(Message::Pre) => (2, TwoCounts::default()),
            Ok(Message::Ack(counts)) => (3, counts),
            Err(_) => (0, TwoCounts::default()),
        };
        DeliveryValues { kind, counts }
    }
}

// Of running on: its number, whether it is over, and the number of deliveries made.
// Stays: the C interface stores the number made on a refusal too, which is why the number of a refusal stands beside the values here.
#[derive(Clone, Copy, PartialEq, Eq)]
pub struct RanValues {
    pub number: u32,
    pub over: u32,
    pub made: u32,
}

impl From<Result<Ran, Halted>> for RanValues {
    ghost use Rattle.machine.specs.Calls.{ran_number, ran_made};
    ghost use Rattle.host_values.specs.Values.{ran_over};

    ghost from_gives = { λ answer v. (v.number ≡ ran_number answer) × (v.over ≡ ran_over answer) × (v.made ≡ ran_made answer) };

    fn from(answer: Result<Ran, Halted>) -> RanValues {
        match answer {
            Ok(Ran::Over(made)) => RanValues {
                number: 0,
                over: 1,
                made,
            },
            Ok(Ran::Spent(made)) => RanValues {
                number: 0,
                over: 0,
                made,
            },
            Err(Halted { refusal, made }) => RanValues {
                number: u32::from(refusal),
                over: 0,
                made,
            },
        }
    }
}

// Of a report: its five values, the verdict 1 for knot, the mark 1 for returned.
#[derive(Clone, Copy, PartialEq, Eq, Default)]
pub struct ReportValues {
    pub deliveries: u32,
    pub knot: u32,
    pub outside: i32,
    pub escape: u32,
    pub returned: u32,
}

impl From<Result<Report, Refusal>> for ReportValues {
    ghost use Rattle.host_values.specs.Values.{report_count, report_knot, report_outside, report_escape, report_returned};

    ghost from_gives = { λ answer v. (v.deliveries ≡ report_count answer) × (v.knot ≡ report_knot answer) ×
        (v.outside ≡ report_outside answer) × (v.escape ≡ report_escape answer) × (v.returned ≡ report_returned answer) };

    fn from(answer: Result<Report, Refusal>) -> ReportValues {
        let Ok(report) = answer else {
            return ReportValues::default();
        };
        ReportValues {
            deliveries: report.deliveries,
            knot: u32::from(report.verdict == Verdict::Knot),
            outside: report.outside,
            escape: report.escape,
            returned: u32::from(report.mark == Mark::Returned),
        }
    }
}
