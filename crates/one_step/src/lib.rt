// One process's step (01, section "Steps"), by value, rule by rule. `step` takes any values whatever and refuses with 21, 25 or 22; in a run
// `other_step` and `start_step` refuse with 22. It stands on `rules`, `steps`, and `tables` for the largest N.
#![tactic(auto)]

ghost use Rattle.std.specs.Prelude.{◌≡◌, true};
ghost use Rattle.tables.specs.Table.{most_processes, IsProcess};
ghost use Rattle.steps.specs.Step.{in_range, count_small, lent_in_range, num_suffices, reply_fits, turn, stepped, start_turn, start_stepped};
ghost use Rattle.one_step.specs.Within.{settled};

use refusals::Refusal;
use steps::{Message, Probes, Process, Reply, Sent, Turn, TwoCounts};

// The largest number of a process, and of its successors or predecessors, as a record holds them.
const MOST_PROCESSES: u32 = tables::MOST_PROCESSES as u32;

// "record or count out of range, father over 128 or a degree over 128" is not met.
// Stays: message and degrees one by one, as `step` and `other_step` take them: a struct for the inner two would be built there to be taken apart here.
#[tactic(auto, unfolding(steps::specs::Step::lent_in_range))]
fn is_lent_in_range(process: Process, message: Message, out_degree: u32, in_degree: u32) -> bool
    ensures { result ≡ lent_in_range message out_degree in_degree process }
{
    steps::is_in_range(process)
        && process.father <= MOST_PROCESSES
        && steps::is_count_small(message)
        && out_degree <= MOST_PROCESSES
        && in_degree <= MOST_PROCESSES
}

// "num loses 1" asks for a num of at least 1.
#[tactic(auto, unfolding(steps::specs::Step::num_suffices))]
fn is_num_sufficient(message: Message, process: Process) -> bool
    ensures { result ≡ num_suffices message process }
{
    match message {
        Message::Suc | Message::Pre => true,
        Message::Ack(_) => 1 <= process.num,
    }
}

// "acknowledge to father 0", or with a count out of range, is refused.
#[tactic(auto, unfolding(steps::specs::Step::reply_fits))]
fn is_reply_fitting(reply: Option<Reply>) -> bool
    ensures { result ≡ reply_fits reply }
{
    match reply {
        None => true,
        Some(Reply { to, counts }) => 1 <= to && steps::are_both_small(counts),
    }
}

// The step of a process other than the start, where no value can leave 32 bits.
#[inline(always)]
fn take_turn(
    process: Process,
    message: Message,
    out_degree: u32,
    in_degree: u32,
    sender: u32,
) -> Turn
    requires lent_fits { lent_in_range message out_degree in_degree process ≡ true }
    requires num_fits { num_suffices message process ≡ true }
    ensures { result ≡ turn message out_degree in_degree sender process }
{
    match message {
        Message::Suc => rules::rule4(rules::rule3(rules::set_succeeding(
            out_degree,
            rules::rule1(sender, process),
        ))),
        Message::Pre => rules::rule4(rules::rule3(rules::set_preceding(
            in_degree,
            rules::rule1(sender, process),
        ))),
        Message::Ack(counts) => rules::rule4(rules::acknowledged(counts, process)),
    }
}

// "s receives a probe: it acknowledges with 0", with 0 as second count too, since s passes nothing on; "s receives acknowledgement c: cs gains c,
// num loses 1"
#[tactic(auto, unfolding(steps::specs::Step::start_turn))]
#[inline(always)]
fn take_start_turn(process: Process, message: Message, sender: u32) -> Turn
    requires process_fits { in_range process ≡ true }
    requires counts_fit { count_small message ≡ true }
    requires num_fits { num_suffices message process ≡ true }
    ensures { result ≡ start_turn message sender process }
{
    match message {
        Message::Suc | Message::Pre => Turn {
            process,
            sent: Sent {
                probes: Probes::Nothing,
                reply: Some(Reply {
                    to: sender,
                    counts: TwoCounts::default(),
                }),
            },
        },
        Message::Ack(counts) => rules::acknowledged(counts, process),
    }
}

// The answer to a step whose num suffices: 22 if it leaves a value out of range or acknowledges to father 0.
#[tactic(auto, unfolding(crate::specs::Within::settled))]
#[inline(always)]
fn settled(turn: Turn) -> Result<Turn, Refusal>
    ensures { result ≡ settled turn }
{
    if steps::is_in_range(turn.process) && is_reply_fitting(turn.sent.reply) {
        Ok(turn)
    } else {
        Err(Refusal::OutOfRange)
    }
}

// The step of a process other than the start, in a run whose records and counts are in range, from one of its processes: it checks 22. Each of its
// two callers has it inline, and so stands all that a step of a run goes through: else the compiler puts it into neither, and a delivery pays for the call.
#[inline(always)]
pub fn other_step(
    process: Process,
    message: Message,
    out_degree: u32,
    in_degree: u32,
    sender: u32,
) -> Result<Turn, Refusal>
    requires lent_fits { lent_in_range message out_degree in_degree process ≡ true }
    requires sender_is_process { IsProcess most_processes sender }
    ensures { result ≡ stepped message out_degree in_degree sender process }
{
    if !is_num_sufficient(message, process) {
        return Err(Refusal::OutOfRange);
    }
    settled(take_turn(process, message, out_degree, in_degree, sender))
}

// One process's step by itself: it checks 21, 25, 22, whatever it is given.
#[tactic(auto, unfolding(steps::specs::Step::stepped, steps::specs::Step::step_number))]
pub fn step(
    process: Process,
    message: Message,
    out_degree: u32,
    in_degree: u32,
    sender: u32,
) -> Result<Turn, Refusal>
    ensures { result ≡ stepped message out_degree in_degree sender process }
{
    if !is_lent_in_range(process, message, out_degree, in_degree) {
        return Err(Refusal::NotWellFormed);
    }
    if sender == 0 || sender > MOST_PROCESSES {
        return Err(Refusal::NoLink);
    }
    other_step(process, message, out_degree, in_degree, sender)
}

// The start's step, in a run whose records and counts are in range: it checks 22.
#[inline(always)]
pub fn start_step(process: Process, message: Message, sender: u32) -> Result<Turn, Refusal>
    requires process_fits { in_range process ≡ true }
    requires counts_fit { count_small message ≡ true }
    ensures { result ≡ start_stepped message sender process }
{
    if !is_num_sufficient(message, process) {
        return Err(Refusal::OutOfRange);
    }
    settled(take_start_turn(process, message, sender))
}
