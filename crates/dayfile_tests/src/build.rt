use std::alloc::{AllocError, Global};

/// A file to build: kind letters, how many contracts, and how many bytes stand before each section and after the last.
#[derive(Clone, Copy)]
pub(crate) struct Shape(pub(crate) &'static str, pub(crate) u32, pub(crate) u32);

/// Writes bytes from an offset of the file on, as many of them as it has place for.
pub(crate) fn put(file: &mut [u8], at: usize, bytes: &[u8]) {
    for (place, byte) in file.iter_mut().skip(at).zip(bytes) {
        *place = *byte;
    }
}

/// Writes a number of four bytes, lowest first, at an offset of the file.
pub(crate) fn put_word(file: &mut [u8], at: usize, word: u32) {
    put(file, at, &word.to_le_bytes());
}

/// The header of a file: its sections follow one another, each after a gap.
fn put_header(file: &mut [u8], parties: u32, contracts: u32, gap: u32) {
    put(file, 0, b"DAY1\x01\x00\x03\x00");
    put(file, 5, &[(parties & 0xff) as u8]);
    let lines = parties.wrapping_mul(192);
    let prices = gap.wrapping_mul(2).wrapping_add(lines).wrapping_add(32);
    let records = gap
        .wrapping_mul(3)
        .wrapping_add(lines.wrapping_mul(2))
        .wrapping_add(32);
    put_word(file, 8, gap.wrapping_add(32));
    put_word(file, 12, lines);
    put_word(file, 16, prices);
    put_word(file, 20, lines);
    put_word(file, 24, records);
    put_word(file, 28, contracts.wrapping_mul(12));
}

/// Contracts of party 0 with party 1 in hour 24, of 4,000,000 kWh at 5,000,000 mil.
fn put_contracts(section: &mut [u8], contracts: u32) {
    for contract in section.chunks_exact_mut(12).take(contracts as usize) {
        put(contract, 1, &[1, 24]);
        put_word(contract, 4, 4_000_000);
        put_word(contract, 8, 5_000_000);
    }
}

/// A file that passes, where party 0 sells and party 1 buys: no energy, no prices, the contracts alone.
pub(crate) fn built(heap: Global, shape: Shape) -> Result<Vec<u8>, AllocError> {
    let Shape(letters, contracts, gap) = shape;
    let parties = letters.len();
    let start = 32usize
        .wrapping_add(384usize.wrapping_mul(parties))
        .wrapping_add(3usize.wrapping_mul(gap as usize));
    let size = start
        .wrapping_add(12usize.wrapping_mul(contracts as usize))
        .wrapping_add(gap as usize);
    let mut file = vec![in heap; 0u8; size]?;
    put_header(file.as_mut_slice(), (parties & 0xff) as u32, contracts, gap);
    if let Some(section) = file.as_mut_slice().get_mut(start..) {
        put_contracts(section, contracts);
    }
    Ok(file)
}
