// Tests of words: what one word, a run of free words and one link may hold.
#![tactic(auto)]

ghost use Rattle.std.specs.Prelude.{◌≡◌, true, ◌+◌, ◌-◌, ◌≤◌, length, get_or, pos, nat_abs};
ghost use Rattle.base.specs.Sums.{all_to};
ghost use Rattle.areas.specs.Area.{same_word};
ghost use Rattle.word_tests.specs.WordTests.{is_free, message_word, link_test};

use areas::words;

// A word is 0 or more.
pub fn is_number(word: i32) -> bool
    ensures { result ≡ same_word word (pos (nat_abs word)) }
{
    word >= 0
}

// Two words are the same.
pub fn is_same(word: i32, other: i32) -> bool
    ensures { result ≡ same_word word other }
{
    word == other
}

// A word that is not 0 is a message of the three kinds, with its counts in range.
fn is_message(word: i32) -> bool
    ensures { result ≡ message_word word }
{
    word >= 0 && steps::is_count_small(words::message_of(word))
}

// The words from `from` up to `to` are 0. All of them are looked at, so that several are at once.
// Stays: `fold(true, ..)` with the same `&` is no plainer, and `all`, which leaves at the first, is compiled to a test of each word (PROVING.md).
pub fn is_free(area: &[i32], from: usize, to: usize) -> bool
    requires { (from ≤ to) × (to ≤ length area.now) }
    ensures { result ≡ all_to (to - from) (λ j. is_free area.now (from + (j - 1))) }
{
    let mut free = true;
    for word in &area[from..to] {
        free = free & (*word == 0);
    }
    free
}

// The first l words of the link at word i are messages with counts in range.
fn are_messages(area: &[i32], i: usize, l: usize) -> bool
    requires { i + l ≤ length area.now }
    ensures { result ≡ all_to l (λ j. message_word (get_or area.now (i + (j - 1)) (pos 0))) }
{
    area[i..i + l].iter().all(|word| is_message(*word))
}

// The link at word i, which has words for so many messages and is so many words long: messages of the three kinds with counts in range, then
// zeros.
pub fn is_link(area: &[i32], i: usize, slots: usize, size: usize) -> bool
    requires slots_le_size { slots ≤ size }
    requires size_in_bounds { i + size ≤ length area.now }
    ensures { result ≡ link_test slots size area.now i }
{
    let l = words::link_length(area, i, slots);
    are_messages(area, i, l) && is_free(area, i + l, i + size)
}
