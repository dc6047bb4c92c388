// Reads a wait table (01, "Wait table") on any bytes and follows its chains. Reading refuses by the rows 1 to 7 of "Refused because of the
// input", in order, and opening a walk by row 8 too. Every arc is read through `arc_in`, of bytes as of the words of a run area. It stands on
// `base`, `refusals` and `tables`.
#![tactic(auto)]

ghost use Rattle.std.specs.Prelude.{◌≡◌, ℕ, true, ◌+◌, ◌*◌, ◌^◌, ◌/◌, ◌≤◌, ◌<◌, length};
ghost use Rattle.base.specs.Sums.{all_to};
ghost use Rattle.refusals.specs.Numbers.{answered};
ghost use Rattle.tables.specs.Table.{field_of, n_of, m_of, field_total, table_length, IsProcess, first, arc_at, near, next};
ghost use Rattle.tables.specs.Reading.{ends_right, firsts_right, nexts_right, walked, chains_right, unlike_before, fields_number, reading_of};
ghost use Rattle.tables.specs.Walking.{opened_of, next_of};
ghost use Rattle.table_reader.specs.Inner.{HoldsTable, Linked, Chained, LastMet, ChainTold, arcs_left_of};

use refusals::Refusal;
use tables::{Arc, Chain, Sizes, is_process};

// Field j, "16 bits, unsigned, low byte first".
pub fn field(s: &[u8], j: usize) -> usize
    requires { 2 * j + 2 ≤ length s.now }
    ensures { result ≡ field_of s.now j }
{
    let at = 2 * j;
    usize::from(u16::from_le_bytes([s[at], s[at + 1]]))
}

// Where the fields of a table stand, in its bytes or in the words of a run area, and how many can be read there.
pub trait Fields: Copy {
    ghost fields: { Self → ℕ → ℕ };

    ghost count: { Self → ℕ };

    fn field_at(self, j: usize) -> usize
        requires { j < count self }
        ensures { result ≡ fields self j };
}

impl Fields for &[u8] {
    ghost fields = { λ s. field_of s.now };

    ghost count = { λ s. length s.now / 2 };

    fn field_at(self, j: usize) -> usize {
        field(self, j)
    }
}

// The first arc of the chain of p, or 0.
#[tactic(auto, unfolding(tables::specs::Table::first))]
pub fn first_in<F: Fields>(t: F, c: Chain, p: usize) -> usize
    requires inside { 2 * p + 1 < F.count t }
    requires countable { F.count t < 2 ^ 64 }
    ensures { result ≡ first c (F.fields t) p }
{
    match c {
        Chain::Out => t.field_at(2 * p),
        Chain::In => t.field_at(2 * p + 1),
    }
}

// Arc k: the one place where an arc is looked up.
#[tactic(auto, using(tables::specs::TableLaws::arc_at_made))]
pub fn arc_in<F: Fields>(t: F, n: usize, k: usize) -> Arc
    requires processes { n ≡ n_of (F.fields t) }
    requires from_one { 1 ≤ k }
    requires inside { field_total n k ≤ F.count t }
    requires countable { F.count t < 2 ^ 64 }
    ensures { result ≡ arc_at (F.fields t) k }
{
    let at = 2 * n + 4 * k - 2;
    Arc {
        from: t.field_at(at),
        to: t.field_at(at + 1),
        next_out: t.field_at(at + 2),
        next_in: t.field_at(at + 3),
    }
}

// The same, of bytes.
pub fn arc_at(s: &[u8], n: usize, k: usize) -> Arc
    requires processes { n ≡ n_of (field_of s.now) }
    requires from_one { 1 ≤ k }
    requires inside { table_length n k ≤ length s.now }
    ensures { result ≡ arc_at (field_of s.now) k }
{
    arc_in(s, n, k)
}

// The first arc of the chain of p, or 0, of bytes.
fn first_of(s: &[u8], c: Chain, p: usize) -> usize
    requires { 4 * p + 4 ≤ length s.now }
    ensures { result ≡ first c (field_of s.now) p }
{
    first_in(s, c, p)
}

// The process whose chain an arc belongs to.
fn near_of(c: Chain, a: Arc) -> usize
    ensures { result ≡ near c a }
{
    match c {
        Chain::Out => a.from,
        Chain::In => a.to,
    }
}

// The arc that follows an arc on its chain, or 0.
pub fn next_of(c: Chain, a: Arc) -> usize
    ensures { result ≡ next c a }
{
    match c {
        Chain::Out => a.next_out,
        Chain::In => a.next_in,
    }
}

// Check 4: both ends of each arc are processes.
// Stays: a loop each for checks 4 and 5, whose promises name a test of the layout each; one loop over a test handed in would say all of it again.
#[tactic(auto, using(base::specs::PrefixLaws::all_to_none, base::specs::PrefixLaws::all_to_more, crate::proofs::Checks::ends_right_both))]
fn ends_right(s: &[u8], sizes: Sizes) -> bool
    requires holds_table { HoldsTable s.now sizes }
    ensures { result ≡ all_to sizes.m (ends_right (field_of s.now)) }
{
    for k in 1..=sizes.m {
        let a = arc_at(s, sizes.n, k);
        if !is_process(a.from, sizes.n) || !is_process(a.to, sizes.n) {
            return false;
        }
    }
    true
}

// Check 5, first fields: none is over M.
#[tactic(auto, using(base::specs::PrefixLaws::all_to_none, base::specs::PrefixLaws::all_to_more, crate::proofs::Checks::firsts_right_both))]
fn firsts_right(s: &[u8], sizes: Sizes) -> bool
    requires holds_table { HoldsTable s.now sizes }
    ensures { result ≡ all_to sizes.n (firsts_right (field_of s.now)) }
{
    for p in 1..=sizes.n {
        if first_of(s, Chain::Out, p) > sizes.m || first_of(s, Chain::In, p) > sizes.m {
            return false;
        }
    }
    true
}

// Check 5, next fields: none is over M.
#[tactic(auto, using(base::specs::PrefixLaws::all_to_none, base::specs::PrefixLaws::all_to_more, crate::proofs::Checks::nexts_right_both))]
fn nexts_right(s: &[u8], sizes: Sizes) -> bool
    requires holds_table { HoldsTable s.now sizes }
    ensures { result ≡ all_to sizes.m (nexts_right (field_of s.now)) }
{
    for k in 1..=sizes.m {
        let a = arc_at(s, sizes.n, k);
        if a.next_out > sizes.m || a.next_in > sizes.m {
            return false;
        }
    }
    true
}

// Check 6 for the chain of p: each arc that it meets is p's own, and none is met once no arc is left. It answers how many arcs are left then,
// none if the chain goes wrong.
fn walk_chain(s: &[u8], sizes: Sizes, c: Chain, p: usize, arcs: usize) -> Option<usize>
    requires holds_table { HoldsTable s.now sizes }
    requires linked { Linked (field_of s.now) }
    requires process { IsProcess sizes.n p }
    ensures { result ≡ arcs_left_of (walked c (field_of s.now) p arcs (first c (field_of s.now) p)) }
{
    let mut l = arcs;
    let mut k = first_of(s, c, p);
    while k != 0 {
        if l == 0 {
            return None;
        }
        let a = arc_at(s, sizes.n, k);
        if near_of(c, a) != p {
            return None;
        }
        k = next_of(c, a);
        l -= 1;
    }
    Some(l)
}

// Check 6 for all out-chains, or all in-chains: M arcs are left at first, and none at the end.
fn chains_right(s: &[u8], sizes: Sizes, c: Chain) -> bool
    requires holds_table { HoldsTable s.now sizes }
    requires linked { Linked (field_of s.now) }
    ensures { result ≡ chains_right c (field_of s.now) }
{
    let mut arcs = sizes.m;
    for p in 1..=sizes.n {
        let Some(l) = walk_chain(s, sizes, c, p, arcs) else {
            return false;
        };
        arcs = l;
    }
    arcs == 0
}

// Check 7 for the out-chain of p: no two of its arcs lead to one process. `last` has for each process the last chain that led to it.
fn chain_unlike(s: &[u8], sizes: Sizes, p: usize, last: &mut [usize; tables::SIDE]) -> bool
    requires holds_table { HoldsTable s.now sizes }
    requires chained { Chained (field_of s.now) }
    requires process { IsProcess sizes.n p }
    requires noted { LastMet p last.old }
    ensures chain_told { ChainTold (field_of s.now) p result }
    ensures noted { result ≡ true → LastMet (p + 1) last.new }
{
    let mut k = first_of(s, Chain::Out, p);
    while k != 0 {
        let a = arc_at(s, sizes.n, k);
        let to = a.to;
        if last[to] == p {
            return false;
        }
        last[to] = p;
        k = next_of(Chain::Out, a);
    }
    true
}

// Check 7: no arc has the ends of one before it. By check 6 the arcs of one process are those of its out-chain.
fn arcs_unlike(s: &[u8], sizes: Sizes) -> bool
    requires holds_table { HoldsTable s.now sizes }
    requires chained { Chained (field_of s.now) }
    ensures { result ≡ all_to (m_of (field_of s.now)) (unlike_before (field_of s.now)) }
{
    let mut last = [0usize; tables::SIDE];
    for p in 1..=sizes.n {
        if !chain_unlike(s, sizes, p, &mut last) {
            return false;
        }
    }
    true
}

// Checks 4 to 7, in order, on bytes that are long enough for their N and M.
#[tactic(auto, using(crate::proofs::Numbers::says_ends, crate::proofs::Numbers::says_firsts, crate::proofs::Numbers::says_nexts, crate::proofs::Numbers::says_out, crate::proofs::Numbers::says_in, crate::proofs::Numbers::says_alike, crate::proofs::Numbers::says_none))]
pub fn check_fields(s: &[u8], sizes: Sizes) -> Result<(), Refusal>
    requires { HoldsTable s.now sizes }
    ensures { result ≡ answered (fields_number (field_of s.now)) tt }
{
    if !ends_right(s, sizes) {
        return Err(Refusal::Ends);
    }
    if !firsts_right(s, sizes) || !nexts_right(s, sizes) {
        return Err(Refusal::ChainField);
    }
    if !chains_right(s, sizes, Chain::Out) || !chains_right(s, sizes, Chain::In) {
        return Err(Refusal::Chain);
    }
    if !arcs_unlike(s, sizes) {
        return Err(Refusal::ArcTwice);
    }
    Ok(())
}

// Reads a table: checks 1 to 7, in order, on any bytes.
#[tactic(auto, using(crate::proofs::Answers::reading_of_1, crate::proofs::Answers::reading_sizes, crate::proofs::Answers::reading_of_3, crate::proofs::Answers::reading_of_4, crate::proofs::Answers::reading_of_0))]
pub fn read(s: &[u8]) -> Result<Sizes, Refusal>
    ensures { result ≡ reading_of s.now }
{
    if s.len() < 4 {
        return Err(Refusal::TableShort);
    }
    let sizes = Sizes {
        n: field(s, 0),
        m: field(s, 1),
    };
    if !sizes.fit() {
        return Err(Refusal::Sizes);
    }
    if s.len() != sizes.table_length() {
        return Err(Refusal::TableLength);
    }
    check_fields(s, sizes)?;
    Ok(sizes)
}

// Opens a walk along a chain of p: checks 1 to 7, then 8; it stands at the chain's first arc, or at 0 if there is none.
#[tactic(auto, using(crate::proofs::Opening::opened_of_read, crate::proofs::Opening::opened_of_8, crate::proofs::Opening::opened_of_at, crate::proofs::Opening::opened_long))]
pub fn open(s: &[u8], c: Chain, p: usize) -> Result<usize, Refusal>
    ensures { result ≡ opened_of s.now c p }
{
    let sizes = read(s)?;
    if !is_process(p, sizes.n) {
        return Err(Refusal::Process);
    }
    Ok(first_of(s, c, p))
}

// A step along a chain, on any bytes: the next arc, or the end.
#[tactic(auto, using(crate::proofs::Steps::next_of_short, crate::proofs::Steps::next_of_zero, crate::proofs::Steps::next_of_over, crate::proofs::Steps::next_of_past, crate::proofs::Steps::next_of_end, crate::proofs::Steps::next_of_arc))]
pub fn next(s: &[u8], c: Chain, k: usize) -> Option<usize>
    ensures { result ≡ next_of s.now c k }
{
    let len = s.len();
    if len < 4 {
        return None;
    }
    let n = field(s, 0);
    let m = field(s, 1);
    if k == 0 || k > m || 4 + 4 * n + 8 * k > len {
        return None;
    }
    let after = next_of(c, arc_at(s, n, k));
    if after == 0 { None } else { Some(after) }
}
