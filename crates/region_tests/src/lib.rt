// The tests of a run area's regions, on any words whatever: the heading, the records and the links. The crate `area_tests` makes them in turn.
#![tactic(auto)]

ghost use Rattle.std.specs.Prelude.{◌≡◌, true, ◌||◌, ◌+◌, ◌≤◌, length};
ghost use Rattle.base.specs.Sums.{all_to};
ghost use Rattle.tables.specs.Table.{field_of, n_of, m_of, most_processes, IsProcess};
ghost use Rattle.tables.specs.Layout.{Right};
ghost use Rattle.sets.specs.Sets.{sets_size, is_in};
ghost use Rattle.areas.specs.Places.{field_place};
ghost use Rattle.areas.specs.Used.{record_used};
ghost use Rattle.areas.specs.Area.{number_at, fields_in};
ghost use Rattle.region_tests.specs.RegionTests.{sizes_test, edition_test, head_test, numbers_test, record_test, arc_test};
ghost use Rattle.region_tests.specs.Loaded.{Loaded};

use areas::{places, words};
use tables::{Sizes, is_process};

// The edition is 1 or 2 (02, N4).
fn is_edition_word(area: &[i32]) -> bool
    requires { field_place 2 ≤ length area.now }
    ensures { result ≡ edition_test area.now }
{
    if !word_tests::is_number(area[places::EDITION]) {
        return false;
    }
    let edition = area[places::EDITION].unsigned_abs() as usize;
    checks::is_edition(edition)
}

// Which check, the start, the count, the edition, and zeros.
pub fn is_head(area: &[i32], n: usize) -> bool
    requires long { field_place 2 ≤ length area.now }
    requires n_is { n ≡ number_at area.now (field_place 0) }
    ensures { result ≡ head_test area.now }
{
    if !word_tests::is_same(area[places::CHECK], places::KNOT_CHECK) {
        return false;
    }
    if !word_tests::is_number(area[places::START]) {
        return false;
    }
    let start = area[places::START].unsigned_abs() as usize;
    if !is_process(start, n) {
        return false;
    }
    if !word_tests::is_number(area[places::COUNT]) {
        return false;
    }
    if area[places::COUNT].unsigned_abs() > checks::MOST_DELIVERIES {
        return false;
    }
    if !is_edition_word(area) {
        return false;
    }
    word_tests::is_free(area, places::HEAD_USED, places::HEAD_SIZE)
}

// One of a and b waits for the other.
fn joined(waits: &[usize], a: usize, b: usize) -> bool
    requires long { sets_size ≤ length waits.now }
    requires one { IsProcess most_processes a }
    requires other { IsProcess most_processes b }
    ensures { result ≡ (is_in waits.now a b || is_in waits.now b a) }
{
    sets::is_in(waits, a, b) || sets::is_in(waits, b, a)
}

// The words of the record at word k that are numbers: the flags, of at most 7, num and father.
fn has_numbers(area: &[i32], k: usize) -> bool
    requires { k + record_used ≤ length area.now }
    ensures { result ≡ numbers_test area.now k }
{
    if !word_tests::is_number(area[k + places::FLAGS]) {
        return false;
    }
    if area[k + places::FLAGS].unsigned_abs() > 7 {
        return false;
    }
    if !word_tests::is_number(area[k + places::NUM]) {
        return false;
    }
    word_tests::is_number(area[k + places::FATHER])
}

// An area whose sizes are right, lent with the bytes of its table, which meets the layout, and with the sets of those that each process waits
// for by it.
#[derive(Clone, Copy)]
pub struct Region<'a> {
    pub words: &'a [i32],
    pub table: &'a [u8],
    pub waits: &'a [usize],
    pub sizes: Sizes,
    pub ghost loaded: { Loaded words.now table.now waits.now sizes },
}

impl Region<'_> {
    // The record of p: values in range, father 0 or a neighbour, zeros in the free words.
    fn is_record(self, p: usize) -> bool
        requires { (1 ≤ p) × (p ≤ self.sizes.n) }
        ensures { result ≡ record_test self.entry.words.now p }
    {
        let k = places::record_start(self.sizes, p);
        if !has_numbers(self.words, k) {
            return false;
        }
        let x = words::record_at(self.words, k);
        if !steps::is_in_range(x) {
            return false;
        }
        let father = x.father as usize;
        if father != 0 {
            if father > self.sizes.n {
                return false;
            }
            if !joined(self.waits, p, father) {
                return false;
            }
        }
        word_tests::is_free(self.words, k + places::RECORD_USED, k + places::RECORD_SIZE)
    }

    pub fn are_records(self) -> bool
        ensures { result ≡ all_to self.entry.sizes.n (record_test self.entry.words.now) }
    {
        for p in 1..=self.sizes.n {
            if !self.is_record(p) {
                return false;
            }
        }
        true
    }

    // The two links of arc k; zeros where it has no link back. Most arcs have no message on either.
    fn is_arc(self, k: usize) -> bool
        requires { (1 ≤ k) × (k ≤ self.sizes.m) }
        ensures { result ≡ arc_test self.entry.words.now k }
    {
        let i = places::link_start(self.sizes, k);
        if word_tests::is_free(self.words, i, i + places::ARC_SIZE) {
            return true;
        }
        if !word_tests::is_link(self.words, i, places::LINK_SLOTS, places::LINK_SIZE) {
            return false;
        }
        let a = table_reader::arc_at(self.table, self.sizes.n, k);
        let back = i + places::LINK_SIZE;
        if !sets::is_in(self.waits, a.to, a.from) {
            return word_tests::is_link(self.words, back, places::LINK_SLOTS, places::LINK_SIZE);
        }
        word_tests::is_free(self.words, back, back + places::LINK_SIZE)
    }

    pub fn are_arcs(self) -> bool
        ensures { result ≡ all_to self.entry.sizes.m (arc_test self.entry.words.now) }
    {
        for k in 1..=self.sizes.m {
            if !self.is_arc(k) {
                return false;
            }
        }
        true
    }
}
