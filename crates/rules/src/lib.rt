// A function for each rule of a step (01, section "Steps"), by value: what a rule makes of the record, and what it sends. No sum wraps. It stands
// on `steps`; it refuses nothing.
#![tactic(auto)]

ghost use Rattle.std.specs.Prelude.{◌≡◌, true, ◌≤◌, pos, ◌+ℤ◌, ◌-ℤ◌};
ghost use Rattle.tables.specs.Table.{most_processes};
ghost use Rattle.steps.specs.Step.{most_num, small, both_small, sums_of, new_subordinate, rule1, set_succeeding, set_preceding, rule3, rule4, acknowledged};
ghost use Rattle.rules.specs.Within.{Addable};

use steps::{Probes, Process, Reply, Sent, Turn, TwoCounts};

// The sum of two counts in range.
#[tactic(auto, using(steps::proofs::Counts::signed_back, steps::proofs::Counts::small_sum))]
fn sum(a: i32, b: i32) -> i32
    requires a_small { small a ≡ true }
    requires b_small { small b ≡ true }
    ensures { result ≡ a +ℤ b }
{
    a + b
}

// New minus old, of two flags.
fn change(new: u32, old: u32) -> i32
    requires new_flag { new ≤ 1 }
    requires old_flag { old ≤ 1 }
    ensures { result ≡ pos new -ℤ pos old }
{
    new as i32 - old as i32
}

// What an acknowledgement carries: "The second sum is passed on .. with cs" (02, N3).
fn sums_of(process: Process) -> TwoCounts
    ensures { result ≡ sums_of process }
{
    TwoCounts {
        count: process.cs,
        second: process.second,
    }
}

// Rule 1: "If num is 0, father becomes p. Otherwise it acknowledges to p with cs, and cs becomes 0."; so does the second sum
#[tactic(auto, using(steps::proofs::Counts::signed_back), unfolding(steps::specs::Step::rule1))]
pub fn rule1(sender: u32, process: Process) -> Turn
    ensures { result ≡ rule1 sender process }
{
    if process.num == 0 {
        Turn {
            process: Process {
                father: sender,
                ..process
            },
            sent: Sent {
                probes: Probes::Nothing,
                reply: None, // the father hears by rule 4, once the probes are counted
            },
        }
    } else {
        Turn {
            process: Process {
                cs: 0,
                second: 0,
                ..process // the father stays while num is above 0
            },
            sent: Sent {
                probes: Probes::Nothing,
                reply: Some(Reply {
                    to: sender,
                    counts: sums_of(process),
                }),
            },
        }
    }
}

// Rule 2: "A suc probe when not succeeding sets it, sends suc to all successors and adds their number to num."; "Such a process adds 1 when it
// first becomes succeeding" (02, N3)
#[tactic(auto, using(steps::proofs::Counts::signed_back, steps::proofs::Counts::small_fits, steps::specs::StepLaws::own_count_small), unfolding(steps::specs::Step::set_succeeding))]
pub fn set_succeeding(out_degree: u32, turn: Turn) -> Turn
    requires degree_in_range { out_degree ≤ most_processes }
    requires num_in_range { turn.process.num ≤ most_num }
    requires second_small { small turn.process.second ≡ true }
    ensures { result ≡ set_succeeding out_degree turn }
{
    let process = turn.process;
    if process.succeeding != 0 {
        return turn;
    }
    Turn {
        process: Process {
            succeeding: 1,
            num: process.num + out_degree,
            second: sum(process.second, steps::own_count(out_degree)),
            ..process
        },
        sent: Sent {
            probes: Probes::Sucs,
            ..turn.sent
        },
    }
}

// Rule 2: "A pre probe does the same with preceding and predecessors."
// Stays: a twin of set_succeeding is no plainer as one: the flag and the probes would be chosen by the chain, and the second sum is of the one alone.
#[tactic(auto, using(steps::proofs::Counts::signed_back), unfolding(steps::specs::Step::set_preceding))]
pub fn set_preceding(in_degree: u32, turn: Turn) -> Turn
    requires degree_in_range { in_degree ≤ most_processes }
    requires num_in_range { turn.process.num ≤ most_num }
    ensures { result ≡ set_preceding in_degree turn }
{
    let process = turn.process;
    if process.preceding != 0 {
        return turn;
    }
    Turn {
        process: Process {
            preceding: 1,
            num: process.num + in_degree,
            ..process
        },
        sent: Sent {
            probes: Probes::Pres,
            ..turn.sent
        },
    }
}

// "new subordinate is succeeding times (1 minus preceding)" (02, N2): of two flags, "1 if succeeding and not preceding, else 0"
#[tactic(auto, using(steps::proofs::Counts::new_subordinate_product))]
fn new_subordinate(process: Process) -> u32
    requires succeeding_flag { process.succeeding ≤ 1 }
    requires preceding_flag { process.preceding ≤ 1 }
    ensures { result ≡ new_subordinate process }
{
    process.succeeding * (1 - process.preceding)
}

// Rule 3: the new subordinate, and "cs gains new minus old".
#[tactic(auto, using(steps::proofs::Counts::signed_back, steps::proofs::Counts::small_fits, steps::proofs::Counts::small_change, steps::proofs::Counts::new_subordinate_flag), unfolding(steps::specs::Step::rule3, steps::specs::Step::gained))]
pub fn rule3(turn: Turn) -> Turn
    requires addable { Addable turn.process }
    requires succeeding_flag { turn.process.succeeding ≤ 1 }
    requires preceding_flag { turn.process.preceding ≤ 1 }
    ensures { result ≡ rule3 turn }
{
    let process = turn.process;
    let new = new_subordinate(process);
    Turn {
        process: Process {
            subordinate: new,
            cs: sum(process.cs, change(new, process.subordinate)),
            ..process
        },
        ..turn
    }
}

// Rule 4: "If num is 0 it acknowledges to father with cs, and cs becomes 0."; so does the second sum
#[tactic(auto, using(steps::proofs::Counts::signed_back), unfolding(steps::specs::Step::rule4))]
pub fn rule4(turn: Turn) -> Turn
    ensures { result ≡ rule4 turn }
{
    let process = turn.process;
    if process.num != 0 {
        return turn;
    }
    Turn {
        process: Process {
            cs: 0,
            second: 0,
            ..process
        },
        sent: Sent {
            reply: Some(Reply {
                to: process.father,
                counts: sums_of(process),
            }),
            ..turn.sent
        },
    }
}

// "cs gains c, num loses 1", and the second sum gains the second count
#[tactic(auto, using(steps::proofs::Counts::signed_back, steps::proofs::Counts::small_fits, steps::proofs::Counts::both_small_parts, crate::proofs::Sums::sums_small), unfolding(steps::specs::Step::acknowledged))]
pub fn acknowledged(counts: TwoCounts, process: Process) -> Turn
    requires counts_small { both_small counts ≡ true }
    requires sums_small { both_small (sums_of process) ≡ true }
    requires awaits { 1 ≤ process.num }
    ensures { result ≡ acknowledged counts process }
{
    Turn {
        process: Process {
            cs: sum(process.cs, counts.count),
            num: process.num - 1,
            second: sum(process.second, counts.second),
            ..process
        },
        sent: Sent {
            probes: Probes::Nothing,
            reply: None,
        },
    }
}
