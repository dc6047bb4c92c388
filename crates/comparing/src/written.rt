// A written table read back, by the library and by the search.
use expecting::faults::{Fault, expect};
use tables::Sizes;

// Whether the search reads the waits of the list from a table.
fn reads_back(table: &[u8], list: &[u16]) -> bool {
    list.chunks_exact(2).enumerate().all(|(k, wait)| wait
        == &[searching::waiting(table, k), searching::awaited(table, k)][..])
}

// Whether the library and the search read those sizes from a table.
fn is_sized(table: &[u8], sizes: Sizes) -> bool {
    table_reader::read(table) == Ok(sizes)
        && usize::from(searching::processes(table)) == sizes.n
        && usize::from(searching::waits(table)) == sizes.m
}

// The table of n processes and the waits of a list.
pub fn compare(table: &[u8], n: usize, list: &[u16]) -> Result<(), Fault> {
    let m = list.len() / 2;
    expect(is_sized(table, Sizes { n, m }), Fault::Reading)?;
    expect(reads_back(table, list), Fault::Waits)
}
