use crate::build::{Shape, built, put, put_word};
use crate::damage::refusal;
use dayfile::DayFile;
use faults::RecordFault;
use market::{Contract, Line, Side, Sides};
use std::alloc::{AllocError, Global};
use std::test::Fail;

/// Two parties, seven bytes before each section: quantities from 39, prices from 430, two contracts from 821.
/// Party 0 has numbers in hour 5, party 1 in hour 24.
fn sample(heap: Global) -> Result<Vec<u8>, AllocError> {
    let mut file = built(heap, Shape("SB", 2, 7))?;
    let bytes = file.as_mut_slice();
    put(bytes, 4, &[31]);
    put_word(bytes, 39 + 32, 1_000);
    put_word(bytes, 39 + 36, 1_200);
    put_word(bytes, 430 + 32, 300_000);
    put_word(bytes, 430 + 36, 0xffff_ffff);
    put_word(bytes, 39 + 192 + 184, 900);
    put_word(bytes, 39 + 192 + 188, 1_150);
    put_word(bytes, 833 + 4, 77);
    Ok(file)
}

/// A line that is there, by its four numbers.
fn line(day_ahead: i64, metered: i64, day_ahead_price: i64, real_time_price: i64) -> Option<Line> {
    Some(Line {
        day_ahead,
        metered,
        day_ahead_price,
        real_time_price,
    })
}

#[test]
fn numbers_by_party_and_hour(rt: HostRuntime) -> Result<(), Fail> {
    let bytes = sample(rt.alloc())?;
    let file = DayFile::open(bytes.as_slice(), 2)?;
    assert_eq!(rt; file.day(), 31);
    assert_eq!(rt;
        file.line(0, Side::Seller, 5),
        line(1_000, 1_200, 300_000, -1)
    );
    assert_eq!(rt; file.line(1, Side::Buyer, 24), line(900, 1_150, 0, 0));
    assert_eq!(rt; file.line(0, Side::Seller, 4), line(0, 0, 0, 0));
    assert_eq!(rt; file.line(2, Side::Seller, 1), None);
    assert_eq!(rt; file.line(0, Side::Seller, 0), None);
    assert_eq!(rt; file.line(0, Side::Seller, 25), None);
    assert_eq!(rt; file.line(usize::MAX, Side::Buyer, usize::MAX), None);
    Ok(())
}

#[test]
fn negative_reading_of_a_seller(rt: HostRuntime) -> Result<(), Fail> {
    let mut bytes = sample(rt.alloc())?;
    put_word(bytes.as_mut_slice(), 39 + 36, 0xffff_fff6);
    let file = DayFile::open(bytes.as_slice(), 2)?;
    assert_eq!(rt; file.line(0, Side::Seller, 5), line(1_000, 0, 300_000, -1));
    assert_eq!(rt; file.line(0, Side::Buyer, 5), line(1_000, -10, 300_000, -1));
    Ok(())
}

#[test]
fn contracts_by_number(rt: HostRuntime) -> Result<(), Fail> {
    let bytes = sample(rt.alloc())?;
    let file = DayFile::open(bytes.as_slice(), 2)?;
    assert_eq!(rt; file.contract_count(), 2);
    let second = Contract {
        seller: 0,
        buyer: 1,
        hour: 24,
        kwh: 77,
        price: 5_000_000,
    };
    assert_eq!(rt; file.contract(1), Some(second));
    assert_eq!(rt; file.contract(2), None);
    Ok(())
}

#[test]
fn structure_and_records_apart(rt: HostRuntime) -> Result<(), Fail> {
    let mut bytes = sample(rt.alloc())?;
    put_word(bytes.as_mut_slice(), 39, 4_000_001);
    let file = DayFile::open(bytes.as_slice(), 2)?;
    let sides = Sides::from_letters(b"SB")?;
    assert_eq!(rt;
        file.check(sides.as_slice()).map_err(RecordFault::refusal),
        Err(refusal((2, 16, 39)))
    );
    assert_eq!(rt;
        file.check(&[Side::Seller]).map_err(RecordFault::refusal),
        Err(refusal((2, 15, 5)))
    );
    Ok(())
}
