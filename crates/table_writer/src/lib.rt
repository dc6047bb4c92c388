// The writer of wait tables (01, "Wait table"): from N and a list of from, to pairs. It checks 10, 2, 4, 7, 11 and writes nothing
// if one of them is met. Each call is of linear time, and it needs no room but the lent output and a few local arrays. It stands on
// `base`, `refusals` and `tables`.
#![tactic(auto)]

ghost use Rattle.std.specs.Prelude.{◌≡◌, ◌+◌, ◌*◌, ◌<◌, ◌≤◌, length, get_or};
ghost use Rattle.base.specs.Sums.{all_to};
ghost use Rattle.refusals.specs.Numbers.{answered};
ghost use Rattle.tables.specs.Table.{most_processes};
ghost use Rattle.table_writer.specs.Writing.{Fit, pairs, ends_fit, unlike, written_field, table_over, write_number, written, writing_of};
ghost use Rattle.table_writer.specs.Putting.{Paired, put_field, put_arc, put_fields, Fronts, EntriesUpTo};

use refusals::Refusal;
use tables::{Sizes, is_process};

// The first fields of the process records, which stand at 2p and 2p + 1, from p 0 to the largest N.
const SLOTS: usize = 2 * (tables::MOST_PROCESSES + 1);

// The list by its pairs, from and to.
fn pairs_of(list: &[u16]) -> &[[u16; 2]]
    ensures { Paired list.now result.now }
{
    let (pairs, _) = list.as_chunks::<2>();
    pairs
}

// Check 4 is not met: each from and to is a process.
fn ends_fit(n: usize, list: &[u16]) -> bool
    ensures { result ≡ all_to (pairs list.now) (ends_fit n list.now) }
{
    for &[from, to] in pairs_of(list) {
        if !is_process(usize::from(from), n) || !is_process(usize::from(to), n) {
            return false;
        }
    }
    true
}

// Check 7 is not met: no two pairs are alike. A square has a cell for each pair of numbers up to the largest N, which says whether that
// pair was passed.
fn all_unlike(list: &[u16]) -> bool
    requires { EntriesUpTo list.now most_processes }
    ensures { result ≡ all_to (pairs list.now) (unlike list.now) }
{
    let mut seen = [false; tables::SQUARE_SIZE];
    for &[from, to] in pairs_of(list) {
        let cell = tables::SIDE * usize::from(from) + usize::from(to);
        if seen[cell] {
            return false;
        }
        seen[cell] = true;
    }
    true
}

// Checks 10, 2, 4, 7 and 11, in that order.
#[tactic(auto, using(crate::proofs::Answers::says_odd, crate::proofs::Answers::says_sizes, crate::proofs::Answers::says_ends, crate::proofs::Answers::says_alike, crate::proofs::Answers::says_short, crate::proofs::Answers::says_none))]
fn check(n: usize, list: &[u16], space: usize) -> Result<(), Refusal>
    ensures { result ≡ answered (write_number n list.now space) tt }
{
    if list.len() % 2 != 0 {
        return Err(Refusal::ListOdd);
    }
    let sizes = Sizes {
        n,
        m: list.len() / 2,
    };
    if !sizes.fit() {
        return Err(Refusal::Sizes);
    }
    if !ends_fit(n, list) {
        return Err(Refusal::Ends);
    }
    if !all_unlike(list) {
        return Err(Refusal::ArcTwice);
    }
    if space < sizes.table_length() {
        return Err(Refusal::OutputShort);
    }
    Ok(())
}

// Field j becomes v, low byte first.
fn put(out: &mut [u8], j: usize, v: u16)
    requires { 2 * j + 1 < length out.old }
    ensures { out.new ≡ put_field out.old j v }
{
    let [low, high] = v.to_le_bytes();
    out[2 * j] = low;
    out[2 * j + 1] = high;
}

// The four fields of an arc, from field `at` on.
fn put_arc(out: &mut [u8], at: usize, from: u16, to: u16, next_out: u16, next_in: u16)
    requires { 2 * at + 7 < length out.old }
    ensures { out.new ≡ put_arc out.old at from to next_out next_in }
{
    put(out, at, from);
    put(out, at + 1, to);
    put(out, at + 2, next_out);
    put(out, at + 3, next_in);
}

// Each arc is put at the front of its two chains, in list order. `firsts` holds the fronts as the process records do: that of p's
// out-chain at 2p and that of its in-chain at 2p + 1.
fn put_arcs(n: usize, list: &[u16], out: &mut [u8], firsts: &mut [u16; SLOTS])
    requires fit { Fit n list.now (length out.old) }
    requires fronts { Fronts list.now 0 firsts.old }
    ensures out_after { out.new ≡ put_fields (written_field n list.now) (2 + 2 * n) (4 * pairs list.now) out.old }
    ensures fronts_after { Fronts list.now (pairs list.now) firsts.new }
{
    for (k, &[from, to]) in pairs_of(list).iter().enumerate() {
        let at_out = 2 * usize::from(from);
        let at_in = 2 * usize::from(to) + 1;
        put_arc(
            out,
            2 + 2 * n + 4 * k,
            from,
            to,
            firsts[at_out],
            firsts[at_in],
        );
        let arc = (k + 1) as u16;
        firsts[at_out] = arc;
        firsts[at_in] = arc;
    }
}

// The process records: fields 2 to 2n + 1.
fn put_firsts(n: usize, firsts: &[u16; SLOTS], out: &mut [u8])
    requires { (n ≤ most_processes) × (4 + 4 * n ≤ length out.old) }
    ensures { out.new ≡ put_fields (λ j. get_or firsts.now j 0) 2 (2 * n) out.old }
{
    let end = 2 + 2 * n;
    for j in 2..end {
        put(out, j, firsts[j]);
    }
}

// The whole table, where no check is met.
fn put_table(n: usize, list: &[u16], out: &mut [u8])
    requires { Fit n list.now (length out.old) }
    ensures { out.new ≡ table_over n list.now out.old }
{
    let mut firsts = [0u16; SLOTS];
    put_arcs(n, list, out, &mut firsts);
    put_firsts(n, &firsts, out);
    put(out, 0, n as u16);
    put(out, 1, (list.len() / 2) as u16);
}

// Writes the table of n processes and of the list's pairs at the front of `out` and gives its length in bytes, or refuses by the first
// check that is met and leaves `out` as it is.
pub fn write(n: usize, list: &[u16], out: &mut [u8]) -> Result<usize, Refusal>
    ensures value { result ≡ writing_of n list.now out.old }
    ensures out_after { out.new ≡ written n list.now out.old }
{
    check(n, list, out.len())?;
    put_table(n, list, out);
    let sizes = Sizes {
        n,
        m: list.len() / 2,
    };
    Ok(sizes.table_length())
}
