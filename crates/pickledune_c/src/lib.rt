// The archive for C and Rust (include/pickledune.h): each public call of `pickledune` under its own name, with its parameters and its clauses word
// for word, as a symbol that hosts link. Each only calls the function of that name.
// Stays: the C interface wants these names, and a program in Rattle calls those of `pickledune`, which are no symbols.
#![tactic(auto)]

ghost use Rattle.std.specs.Prelude.{◌≡◌, pos};
ghost use Rattle.areas.specs.Area.{knot_check};
ghost use Rattle.tables.specs.Reading.{reading_of};
ghost use Rattle.host_values.specs.TableValues.{number_of, n_found, m_found, writing_number, written_length, started_number};
ghost use Rattle.table_writer.specs.Writing.{writing_of, written};
ghost use Rattle.tables.specs.Walking.{opened_of, opened_number, opened_arc, next_of, next_arc};
ghost use Rattle.checks.specs.Calls.{delivery_number, report_number, reading_number};
ghost use Rattle.host_values.specs.Values.{delivery_kind, delivery_counts, ran_over, report_count, report_knot, report_outside, report_escape};
ghost use Rattle.host_values.specs.Values.{report_returned, reading_process};
ghost use Rattle.machine.specs.Calls.{ran_number, ran_made};
ghost use Rattle.starting.specs.StartCall.{start_answer, start_area};
ghost use Rattle.area_calls.specs.AreaCalls.{pick_answer, pick_area, run_on_answer, run_on_area, shuffled_answer, shuffled_area, report_answer, read_answer};
ghost use Rattle.host_values.specs.Interface.{chain_of, message_of, process_of, StepTold};
ghost use Rattle.host_values.specs.Versions.{library_version};

// The version of the library as one number: 1.0.0.
#[unsafe(no_mangle)]
pub extern "C" fn pickledune_version() -> u32
    ensures { result ≡ library_version }
{
    pickledune::pickledune_version()
}

// The version of the layout: what word 0 of every area holds that a start makes and the other calls accept.
#[unsafe(no_mangle)]
pub extern "C" fn pickledune_layout() -> u32
    ensures { pos result ≡ knot_check }
{
    pickledune::pickledune_layout()
}

// Reads a table: its N and M. 1 to 7.
#[unsafe(no_mangle)]
pub extern "C" fn pickledune_read_table(table: &[u8], n: &mut usize, m: &mut usize) -> u32
    ensures number { result ≡ number_of (reading_of table.now) }
    ensures processes { n.new ≡ n_found (reading_of table.now) }
    ensures arcs { m.new ≡ m_found (reading_of table.now) }
{
    pickledune::pickledune_read_table(table, n, m)
}

// Writes the table of n processes and of the list's pairs at the front of out: its length. 10, 2, 4, 7, 11.
#[unsafe(no_mangle)]
pub extern "C" fn pickledune_write_table(
    n: usize,
    list: &[u16],
    out: &mut [u8],
    length: &mut usize,
) -> u32
    ensures number { result ≡ writing_number (writing_of n list.now out.old) }
    ensures length { length.new ≡ written_length (writing_of n list.now out.old) }
    ensures out { out.new ≡ written n list.now out.old }
{
    pickledune::pickledune_write_table(n, list, out, length)
}

// Opens a walk along a chain of a process: the arc that it stands at, 0 if there is none. 1 to 8.
#[unsafe(no_mangle)]
pub extern "C" fn pickledune_open(table: &[u8], chain: u32, process: usize, arc: &mut usize) -> u32
    ensures number { result ≡ opened_number (opened_of table.now (chain_of chain) process) }
    ensures arc { arc.new ≡ opened_arc (opened_of table.now (chain_of chain) process) }
{
    pickledune::pickledune_open(table, chain, process, arc)
}

// A step along a chain: the next arc, or 0 at the end. It refuses nothing.
#[unsafe(no_mangle)]
pub extern "C" fn pickledune_next(table: &[u8], chain: u32, arc: usize) -> usize
    ensures { result ≡ next_arc (next_of table.now (chain_of chain) arc) }
{
    pickledune::pickledune_next(table, chain, arc)
}

// Starts a check in the lent words, under edition 1 or 2. 1 to 8, 30, 9.
#[unsafe(no_mangle)]
pub extern "C" fn pickledune_start(
    table: &[u8],
    start: usize,
    edition: usize,
    area: &mut [i32],
) -> u32
    ensures number { result ≡ started_number (start_answer table.now start edition area.old) }
    ensures area { area.new ≡ start_area table.now start edition area.old }
{
    pickledune::pickledune_start(table, start, edition, area)
}

// Delivers the message at a place of one link, 1 for the oldest: its kind and its two counts. 21, 25, 23, 24, 31, 22.
#[unsafe(no_mangle)]
pub extern "C" fn pickledune_pick(
    area: &mut [i32],
    from: usize,
    to: usize,
    place: usize,
    kind: &mut u32,
    count: &mut i32,
    second: &mut i32,
) -> u32
    ensures number { result ≡ delivery_number (pick_answer area.old from to place) }
    ensures kind { kind.new ≡ delivery_kind (pick_answer area.old from to place) }
    ensures count { count.new ≡ (delivery_counts (pick_answer area.old from to place)).count }
    ensures second { second.new ≡ (delivery_counts (pick_answer area.old from to place)).second }
    ensures area { area.new ≡ pick_area area.old from to place }
{
    pickledune::pickledune_pick(area, from, to, place, kind, count, second)
}

// Makes up to k deliveries in the fixed order: whether the run is over, and the number made. 21, 24, 22.
#[unsafe(no_mangle)]
pub extern "C" fn pickledune_run_on(area: &mut [i32], k: u32, over: &mut u32, made: &mut u32) -> u32
    ensures number { result ≡ ran_number (run_on_answer k area.old) }
    ensures over { over.new ≡ ran_over (run_on_answer k area.old) }
    ensures made { made.new ≡ ran_made (run_on_answer k area.old) }
    ensures area { area.new ≡ run_on_area k area.old }
{
    pickledune::pickledune_run_on(area, k, over, made)
}

// The same in the order that a seed gives. 21, 37, 24, 22.
#[unsafe(no_mangle)]
pub extern "C" fn pickledune_run_shuffled(
    area: &mut [i32],
    k: u32,
    seed: u32,
    over: &mut u32,
    made: &mut u32,
) -> u32
    ensures number { result ≡ ran_number (shuffled_answer k seed area.old) }
    ensures over { over.new ≡ ran_over (shuffled_answer k seed area.old) }
    ensures made { made.new ≡ ran_made (shuffled_answer k seed area.old) }
    ensures area { area.new ≡ shuffled_area k seed area.old }
{
    pickledune::pickledune_run_shuffled(area, k, seed, over, made)
}

// The report of a run that is over. 21, 26.
#[unsafe(no_mangle)]
pub extern "C" fn pickledune_report(
    area: &[i32],
    deliveries: &mut u32,
    knot: &mut u32,
    outside: &mut i32,
    escape: &mut u32,
    returned: &mut u32,
) -> u32
    ensures number { result ≡ report_number (report_answer area.now) }
    ensures deliveries { deliveries.new ≡ report_count (report_answer area.now) }
    ensures knot { knot.new ≡ report_knot (report_answer area.now) }
    ensures outside { outside.new ≡ report_outside (report_answer area.now) }
    ensures escape { escape.new ≡ report_escape (report_answer area.now) }
    ensures returned { returned.new ≡ report_returned (report_answer area.now) }
{
    pickledune::pickledune_report(area, deliveries, knot, outside, escape, returned)
}

// The record of one process. 21, 25.
#[unsafe(no_mangle)]
pub extern "C" fn pickledune_read_record(
    area: &[i32],
    process: usize,
    succeeding: &mut u32,
    preceding: &mut u32,
    subordinate: &mut u32,
    cs: &mut i32,
    num: &mut u32,
    father: &mut u32,
    second: &mut i32,
) -> u32
    ensures number { result ≡ reading_number (read_answer area.now process) }
    ensures succeeding { succeeding.new ≡ (reading_process (read_answer area.now process)).succeeding }
    ensures preceding { preceding.new ≡ (reading_process (read_answer area.now process)).preceding }
    ensures subordinate { subordinate.new ≡ (reading_process (read_answer area.now process)).subordinate }
    ensures cs { cs.new ≡ (reading_process (read_answer area.now process)).cs }
    ensures num { num.new ≡ (reading_process (read_answer area.now process)).num }
    ensures father { father.new ≡ (reading_process (read_answer area.now process)).father }
    ensures second { second.new ≡ (reading_process (read_answer area.now process)).second }
{
    pickledune::pickledune_read_record(
        area,
        process,
        succeeding,
        preceding,
        subordinate,
        cs,
        num,
        father,
        second,
    )
}

// The step of one process other than the start, on the record that the first seven references hold; a refusal leaves them as they were.
// 21, 25, 22.
#[unsafe(no_mangle)]
pub extern "C" fn pickledune_step(
    succeeding: &mut u32,
    preceding: &mut u32,
    subordinate: &mut u32,
    cs: &mut i32,
    num: &mut u32,
    father: &mut u32,
    second: &mut i32,
    kind: u32,
    count: i32,
    second_count: i32,
    out_degree: u32,
    in_degree: u32,
    sender: u32,
    probes: &mut u32,
    reply_to: &mut u32,
    reply_count: &mut i32,
    reply_second: &mut i32,
) -> u32
    ensures { StepTold (message_of kind (record { count = count; second = second_count })) out_degree in_degree sender
        (process_of succeeding.old preceding.old subordinate.old cs.old num.old father.old
        second.old)
        (process_of succeeding.new preceding.new subordinate.new cs.new num.new father.new
        second.new)
        result probes.new reply_to.new (record { count = reply_count.new; second = reply_second.new }) }
{
    pickledune::pickledune_step(
        succeeding,
        preceding,
        subordinate,
        cs,
        num,
        father,
        second,
        kind,
        count,
        second_count,
        out_degree,
        in_degree,
        sender,
        probes,
        reply_to,
        reply_count,
        reply_second,
    )
}
