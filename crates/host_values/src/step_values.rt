// One process's step on numbers, by value: the message from its kind and count, and the answer's values.
ghost use Rattle.std.specs.Prelude.{◌≡◌};
ghost use Rattle.host_values.specs.Values.{stepped_probes, stepped_reply};
ghost use Rattle.host_values.specs.Interface.{message_of, probes_number, reply_receiver};
ghost use Rattle.steps.specs.Effect.{counts_replied};
ghost use Rattle.lending.specs.Lent.{lent_record};

use refusals::Refusal;
use steps::{Message, Process, Turn, TwoCounts};

// Of a step: the record, the probes, 1 for suc and 2 for pre, and the acknowledgement with its receiver, zeros where there is none.
#[derive(Clone, Copy, PartialEq, Eq)]
pub struct StepValues {
    pub process: Process,
    pub probes: u32,
    pub reply_to: u32,
    pub reply_counts: TwoCounts,
}

// A count out of range.
const NO_COUNT: i32 = steps::MOST_COUNT + 1;

// A kind that is none of 1, 2, 3 gives a count out of range, which the step refuses.
// Stays: the C interface gives the kind and the counts apart, and an unknown kind is no error here but refused by the step, so it is no TryFrom.
#[tactic(auto, unfolding(crate::specs::Interface::message_of))]
pub fn message_of(kind: u32, counts: TwoCounts) -> Message
    ensures { result ≡ message_of kind counts }
{
    match kind {
        1 => Message::Suc,
        2 => Message::Pre,
        3 => Message::Ack(counts),
        _ => Message::Ack(TwoCounts {
            count: NO_COUNT,
            second: 0,
        }),
    }
}

// The values of an answer, with the record that was lent.
#[tactic(auto, unfolding(lending::specs::Lent::lent_record))]
pub fn step_values(answer: Result<Turn, Refusal>, lent: Process) -> StepValues
    ensures { (result.process ≡ lent_record lent answer) × (result.probes ≡ probes_number (stepped_probes answer)) ×
        (result.reply_to ≡ reply_receiver (stepped_reply answer)) × (result.reply_counts ≡ counts_replied (stepped_reply answer)) }
{
    let Ok(Turn { process, sent }) = answer else {
        return StepValues {
            process: lent,
            probes: 0,
            reply_to: 0,
            reply_counts: TwoCounts::default(),
        };
    };
    let (reply_to, reply_counts) = match sent.reply {
        None => (0, TwoCounts::default()),
        Some(reply) => (reply.to, reply.counts),
    };
    StepValues {
        process,
        probes: sent.probes as u32,
        reply_to,
        reply_counts,
    }
}
