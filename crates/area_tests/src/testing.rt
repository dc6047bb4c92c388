// The test of an area: is it well formed? On any words whatever, in one pass over them.
ghost use Rattle.std.specs.Prelude.{◌≡◌, true, ℕ, ◌+◌, ◌-◌, ◌*◌, ◌≤◌, ◌<◌, length, get_or};
ghost use Rattle.base.specs.Sums.{all_to};
ghost use Rattle.tables.specs.Table.{field_of, n_of, m_of, most_processes, most_arcs, field_total, table_length};
ghost use Rattle.tables.specs.Layout.{Right};
ghost use Rattle.table_reader.specs.Inner.{HoldsTable};
ghost use Rattle.sets.specs.Sets.{sets_size};
ghost use Rattle.areas.specs.Places.{field_place};
ghost use Rattle.areas.specs.Area.{area_right};
ghost use Rattle.region_tests.specs.RegionTests.{sizes_test};
ghost use Rattle.region_tests.specs.Waiting.{Waiting};
ghost use Rattle.area_tests.specs.AreaTests.{most_bytes, field_word, field_test};
ghost use Rattle.area_tests.specs.Testing.{sizes_of, CopiedTo};

use areas::places;
use refusals::Refusal;
use region_tests::Region;
use tables::Sizes;

// Enough words for N and M, which are in range, and for all that they need.
fn sizes_of(area: &[i32]) -> Result<Sizes, Refusal>
    ensures { result ≡ sizes_of (sizes_test area.now) area.now }
{
    if area.len() < places::SIZES_END {
        return Err(Refusal::NotWellFormed);
    }
    let sizes = Sizes {
        n: area[places::N_PLACE].unsigned_abs() as usize,
        m: area[places::M_PLACE].unsigned_abs() as usize,
    };
    if !sizes.fit() || area.len() < places::area_length(sizes) {
        return Err(Refusal::NotWellFormed);
    }
    Ok(sizes)
}

// A word is a field: a number of 16 bits.
fn is_field(word: i32) -> bool
    ensures { result ≡ field_word word }
{
    word_tests::is_number(word) && word.unsigned_abs() <= 65535
}

// Copies the fields of the table into bytes, which are 0 before; says whether each is a number of 16 bits. All of them are copied, so that
// several are at once.
fn fields_to_bytes(area: &[i32], count: usize, table: &mut [u8; places::MOST_BYTES]) -> bool
    requires inside { field_place count ≤ length area.now }
    requires few { count ≤ field_total most_processes most_arcs }
    requires long { length table.old ≡ most_bytes }
    requires zeros { (k : ℕ) → get_or table.old k 0 ≡ 0 }
    ensures tested { result ≡ all_to count (λ j. field_test area.now (j - 1)) }
    ensures copied { result ≡ true → CopiedTo area.now count table.new }
    ensures kept_length { length table.new ≡ most_bytes }
{
    let mut right = true;
    // Stays: by its number a field has its word and its two bytes, as `field_place` and the clauses say; two iterators side by side are no plainer.
    for j in 0..count {
        let word = area[places::field_place(j)];
        right = right & is_field(word);
        let x = word.unsigned_abs();
        let at = 2 * j;
        table[at] = (x % 256) as u8;
        table[at + 1] = (x / 256 % 256) as u8;
    }
    right
}

// Fills empty sets: for each process that of those it waits for, by the arcs of a table that meets the layout.
fn fill(table: &[u8], sizes: Sizes, waits: &mut [usize; sets::SETS_SIZE])
    requires right { Right (field_of table.now) }
    requires holds { HoldsTable table.now sizes }
    requires long { length waits.old ≡ sets_size }
    requires zeros { (k : ℕ) → get_or waits.old k 0 ≡ 0 }
    ensures { Waiting (field_of table.now) waits.new }
{
    for k in 1..=sizes.m {
        let a = table_reader::arc_at(table, sizes.n, k);
        sets::add(waits, a.from, a.to);
    }
}

// The whole test.
pub fn test(area: &[i32]) -> Result<Sizes, Refusal>
    ensures { result ≡ sizes_of (area_right area.now) area.now }
{
    let sizes = sizes_of(area)?;
    let mut table = [0u8; places::MOST_BYTES];
    if !fields_to_bytes(area, places::field_total(sizes), &mut table) {
        return Err(Refusal::NotWellFormed);
    }
    if table_reader::check_fields(&table, sizes).is_err() {
        return Err(Refusal::NotWellFormed);
    }
    if !region_tests::is_head(area, sizes.n) {
        return Err(Refusal::NotWellFormed);
    }
    let mut waits = [0usize; sets::SETS_SIZE];
    fill(&table, sizes, &mut waits);
    let region = Region {
        words: area,
        table: &table[..],
        waits: &waits[..],
        sizes,
    };
    if !region.are_records() || !region.are_arcs() {
        return Err(Refusal::NotWellFormed);
    }
    Ok(sizes)
}
