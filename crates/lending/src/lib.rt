// One process record, lent with one message and updated by the step of a process other than the start (01, section "Steps").
// step_record takes the record by &mut and stores what the step leaves; lend has a record of its own to lend, for callers that hold none behind a
// reference.
#![tactic(auto)]

ghost use Rattle.std.specs.Prelude.{◌≡◌};
ghost use Rattle.steps.specs.Step.{stepped};
ghost use Rattle.lending.specs.Lent.{lent_answer, lent_record, lent_outcome};

use refusals::Refusal;
use steps::{Message, Process, Sent};

// The record afterwards and the answer.
#[derive(Clone, Copy, PartialEq, Eq)]
pub struct Outcome {
    pub process: Process,
    pub answer: Result<Sent, Refusal>,
}

// The step on a record that the host lends: the record holds what the step leaves, and on a refusal what it held.
#[tactic(auto, unfolding(crate::specs::Lent::lent_answer, crate::specs::Lent::lent_record))]
pub fn step_record(
    process: &mut Process,
    message: Message,
    out_degree: u32,
    in_degree: u32,
    sender: u32,
) -> Result<Sent, Refusal>
    ensures value { result ≡ lent_answer (stepped message out_degree in_degree sender process.old) }
    ensures process_after { process.new ≡ lent_record process.old (stepped message out_degree in_degree sender process.old) }
{
    let turn = one_step::step(*process, message, out_degree, in_degree, sender)?;
    *process = turn.process;
    Ok(turn.sent)
}

// The same on a record that is given by value: it is lent here.
pub fn lend(
    mut process: Process,
    message: Message,
    out_degree: u32,
    in_degree: u32,
    sender: u32,
) -> Outcome
    ensures { result ≡ lent_outcome process (stepped message out_degree in_degree sender process) }
{
    let answer = step_record(&mut process, message, out_degree, in_degree, sender);
    Outcome { process, answer }
}
