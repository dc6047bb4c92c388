// Leaves: what one word, one record and one link of an area hold. Everything above reads and writes words through these.
ghost use Rattle.std.specs.Prelude.{◌≡◌, true, ◌+◌, ◌-◌, ◌^◌, ◌≤◌, ◌<◌, length, set, pos, nat_abs};
ghost use Rattle.std.specs.List.{position};
ghost use Rattle.std.specs.Ordering.{int_eq};
ghost use Rattle.std.proofs.lemmas.List.Edits.{sets};
ghost use Rattle.tables.specs.Table.{most_processes};
ghost use Rattle.steps.specs.Step.{small, in_range, count_small};
ghost use Rattle.areas.specs.Used.{record_used};
ghost use Rattle.areas.specs.Area.{record_word, lifted, code_of, record_at, lowered, message_of, messages_at};
ghost use Rattle.areas.specs.Writes.{record_words, Packed, moved_down};
ghost use Rattle.areas.specs.Used.{Counts, Counted};

use crate::places;
use steps::{Message, Process, TwoCounts};

// A word of 0 or more as a number.
pub fn unsigned(word: i32) -> u32
    requires { Counts word }
    ensures { result ≡ nat_abs word }
{
    word as u32
}

// A count as a number.
fn lifted(count: i32) -> u32
    requires { small count ≡ true }
    ensures { result ≡ lifted count }
{
    unsigned(places::COUNT_ZERO + count)
}

// The count that stands as this number.
fn lowered(code: u32) -> i32
    requires { code < 2 ^ 31 }
    ensures { result ≡ lowered code }
{
    code as i32 - places::COUNT_ZERO
}

// The message of a word above 0.
// Stays: From and TryFrom are no plainer: neither may ask anything, and this asks for a word of 0 or more, code_of for counts in range.
pub fn message_of(word: i32) -> Message
    requires { Counts word }
    ensures { result ≡ message_of word }
{
    let code = unsigned(word);
    match code {
        1 => Message::Suc,
        2 => Message::Pre,
        _ => Message::Ack(TwoCounts {
            count: lowered(code % places::COUNT_SIZE),
            second: lowered(code / places::COUNT_SIZE),
        }),
    }
}

// The word of a message whose counts are in range.
pub fn code_of(message: Message) -> i32
    requires { count_small message ≡ true }
    ensures { result ≡ code_of message }
{
    match message {
        Message::Suc => 1,
        Message::Pre => 2,
        Message::Ack(counts) => {
            (lifted(counts.count) + places::COUNT_SIZE * lifted(counts.second)) as i32
        }
    }
}

// Where the first of these words that is 0 stands.
fn first_zero(words: &[i32]) -> Option<usize>
    ensures { result ≡ position (λ word. int_eq word (pos 0)) words.now }
{
    words.iter().position(|word| *word == 0)
}

// How many messages wait on the link at word i, which has words for so many.
pub fn link_length(area: &[i32], i: usize, slots: usize) -> usize
    requires { i + slots ≤ length area.now }
    ensures { result ≡ length (messages_at area.now i slots) }
{
    first_zero(&area[i..i + slots]).unwrap_or(slots)
}

// The record at word k, whose flags, num and father are 0 or more.
pub fn record_at(area: &[i32], k: usize) -> Process
    requires record_used_in_bounds { k + record_used ≤ length area.now }
    requires counted { Counted area.now k }
    ensures { result ≡ record_at area.now k }
{
    let flags = unsigned(area[k + places::FLAGS]);
    Process {
        succeeding: flags % 2,
        preceding: flags / 2 % 2,
        subordinate: flags / 4 % 2,
        cs: area[k + places::CS],
        num: unsigned(area[k + places::NUM]),
        father: unsigned(area[k + places::FATHER]),
        second: area[k + places::SECOND],
    }
}

// The three flags of a record in one word.
fn flags_of(x: Process) -> i32
    requires { in_range x ≡ true }
    ensures { result ≡ record_word x 0 }
{
    (x.succeeding + 2 * x.preceding + 4 * x.subordinate) as i32
}

// Puts a record at word k.
pub fn put_record(area: &mut [i32], k: usize, x: Process)
    requires record_used_in_bounds { k + record_used ≤ length area.old }
    requires in_range { in_range x ≡ true }
    requires father_le_most_processes { x.father ≤ most_processes }
    ensures { area.new ≡ sets area.old k (record_words x) }
{
    area[k + places::FLAGS] = flags_of(x);
    area[k + places::CS] = x.cs;
    area[k + places::NUM] = x.num as i32;
    area[k + places::FATHER] = x.father as i32;
    area[k + places::SECOND] = x.second;
}

// Takes out the word at i: the words behind it, up to `end`, move down by one, and the last becomes 0. Behind a 0 there are only zeros, so that it
// stops at the first.
// Stays: copy_within, tried, takes 1.5 ns more a call; a running on, at 1.03 of its bar of 1.05 (BENCHMARKS.md), has 1.2 ns left a delivery.
pub fn take_off(area: &mut [i32], i: usize, end: usize)
    requires i_lt_end { i < end }
    requires end_in_bounds { end ≤ length area.old }
    requires packed { Packed area.old i end }
    ensures { area.new ≡ moved_down area.old i end }
{
    let last = end - 1;
    for k in i..last {
        let next = area[k + 1];
        area[k] = next;
        if next == 0 {
            return;
        }
    }
    area[last] = 0;
}

// Puts a message on the link at word i, which has words for so many, behind those that wait there.
pub fn put_on(area: &mut [i32], i: usize, slots: usize, code: i32)
    requires slots_in_bounds { i + slots ≤ length area.old }
    requires slots_len_bound { length (messages_at area.old i slots) < slots }
    ensures { area.new ≡ set area.old (i + length (messages_at area.old i slots)) code }
{
    let l = link_length(area, i, slots);
    area[i + l] = code;
}
