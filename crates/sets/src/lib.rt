// Sets of processes as binary digits, in an array of numbers: a set for each process and one for 0, two words each, a process a digit of one:
// the first 64 processes in the first word, the others in the second. Only this file says where a digit stands.
//
// Whoever lends a longer array has the words behind the sets for its own. It stands on `tables`; it refuses nothing.
#![tactic(auto)]

ghost use Rattle.std.specs.Prelude.{◌≡◌, ◌+◌, ◌/◌, ◌%◌, ◌^◌, ◌≤◌, ◌<◌, eqb, length};
ghost use Rattle.tables.specs.Table.{most_processes, IsProcess};
ghost use Rattle.sets.specs.Sets.{sets_size, word_digits, set_at, word_at, digit_of};
ghost use Rattle.sets.specs.Sets.{word, is_in, added_to, struck_from, lowest_of, lowest_in, Ranked};

// Two words for each process, and for 0.
// Stays: words of a lent array, no struct: what may not change needs it, `Rows` and `Marks` (marks) speak of one list, the counts behind the sets.
pub const SETS_SIZE: usize = 2 * tables::SIDE;

// How many processes a word has digits for.
const WORD_DIGITS: usize = 64;

// The first process that the second word has a digit for.
const SECOND_WORD: usize = WORD_DIGITS + 1;

// The first word of the set j.
pub fn set_at(j: usize) -> usize
    requires { j ≤ most_processes }
    ensures { result ≡ set_at j }
{
    2 * j
}

// The word that has a digit for p, in the set j.
pub fn word_at(j: usize, p: usize) -> usize
    requires set_number { j ≤ most_processes }
    requires process { IsProcess most_processes p }
    ensures { result ≡ word_at j p }
{
    set_at(j) + (p - 1) / WORD_DIGITS
}

// Where p's digit stands in its word.
fn digit_of(p: usize) -> usize
    requires { 1 ≤ p }
    ensures { result ≡ digit_of p }
{
    (p - 1) % WORD_DIGITS
}

// p's digit as a number.
pub fn power_of(p: usize) -> usize
    requires { 1 ≤ p }
    ensures { result ≡ 2 ^ digit_of p }
{
    1usize << digit_of(p)
}

// Whether p's digit is set in a word.
pub fn is_set(word: usize, p: usize) -> bool
    requires { 1 ≤ p }
    ensures { result ≡ eqb (word / 2 ^ digit_of p % 2) 1 }
{
    (word >> digit_of(p)) % 2 == 1
}

// Whether p is in the set j.
pub fn is_in(words: &[usize], j: usize, p: usize) -> bool
    requires long { sets_size ≤ length words.now }
    requires set_number { j ≤ most_processes }
    requires process { IsProcess most_processes p }
    ensures { result ≡ is_in words.now j p }
{
    is_set(words[word_at(j, p)], p)
}

// Puts p, who is not in it, into the set j.
pub fn add(words: &mut [usize], j: usize, p: usize)
    requires long { sets_size ≤ length words.old }
    requires set_number { j ≤ most_processes }
    requires process { IsProcess most_processes p }
    requires digit_free { word words.old j p + 2 ^ digit_of p < 2 ^ word_digits }
    ensures { words.new ≡ added_to words.old j p }
{
    let at = word_at(j, p);
    words[at] += power_of(p);
}

// Takes p, who is in it, out of the set j.
// Stays: one function for both is no plainer: what adding asks (p is out) and what striking asks (p is in) would both hang on a flag.
pub fn strike(words: &mut [usize], j: usize, p: usize)
    requires long { sets_size ≤ length words.old }
    requires set_number { j ≤ most_processes }
    requires process { IsProcess most_processes p }
    requires digit_taken { 2 ^ digit_of p ≤ word words.old j p }
    ensures { words.new ≡ struck_from words.old j p }
{
    let at = word_at(j, p);
    words[at] -= power_of(p);
}

// The lowest process of a set in two words, or a number past all processes.
// Stays: a number for none, here and in the two below: what may not change needs it, `lowest_of` and `Nth` (specs/Sets) speak of a number.
pub fn lowest_of(low: usize, high: usize) -> usize
    ensures is { result ≡ lowest_of low high }
    ensures low { 1 ≤ result }
{
    if low != 0 {
        return low.trailing_zeros() as usize + 1;
    }
    high.trailing_zeros() as usize + SECOND_WORD
}

// The lowest process of the set j, or a number past all processes.
pub fn lowest_in(words: &[usize], j: usize) -> usize
    requires long { sets_size ≤ length words.now }
    requires set_number { j ≤ most_processes }
    ensures is { result ≡ lowest_in words.now j }
    ensures low { 1 ≤ result }
{
    let at = set_at(j);
    lowest_of(words[at], words[at + 1])
}

// The process of the set j that has so many of it below it, if there is one: so many times the lowest 1 of its two words is struck out.
pub fn ranked_in(words: &[usize], j: usize, rank: usize) -> usize
    requires long { sets_size ≤ length words.now }
    requires set_number { j ≤ most_processes }
    ensures { Ranked words.now j rank result }
{
    let at = set_at(j);
    let mut low = words[at];
    let mut high = words[at + 1];
    for _ in 0..rank {
        if low != 0 {
            low &= low - 1;
        } else if high != 0 {
            high &= high - 1;
        }
    }
    lowest_of(low, high)
}
