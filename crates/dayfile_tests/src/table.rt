use crate::build::Shape;
use crate::damage::Damage::{Byte, Cut, Word};
use crate::damage::{Case, answer, refusal};
use std::alloc::Global;
use std::process::Abort;
use std::test::Fail;

/// Two parties, one contract: 812 bytes, the quantities from 32, the prices from 416, the contract at 800.
const SMALL: Shape = Shape("SB", 1, 0);

/// −1 as it stands in a file.
const MINUS_ONE: u32 = 0xffff_ffff;

const HEADER: [Case; 12] = [
    Case(SMALL, "SB", &[], Ok(())),
    Case(SMALL, "SB", &[Cut(0)], Err((1, 11, 0))),
    Case(SMALL, "SB", &[Cut(31)], Err((1, 11, 31))),
    Case(SMALL, "SB", &[Cut(32)], Err((1, 13, 1))),
    Case(SMALL, "SB", &[Byte(0, b'd')], Err((1, 12, 0))),
    Case(SMALL, "SB", &[Byte(1, b'B')], Err((1, 12, 1))),
    Case(SMALL, "SB", &[Byte(2, b'Z')], Err((1, 12, 2))),
    Case(SMALL, "SB", &[Byte(3, b'2')], Err((1, 12, 3))),
    Case(SMALL, "SB", &[Byte(4, 255)], Ok(())),
    Case(SMALL, "SB", &[Byte(6, 2)], Err((1, 12, 6))),
    Case(SMALL, "SB", &[Byte(7, 1)], Err((1, 12, 7))),
    Case(SMALL, "SB", &[Byte(7, 1), Byte(3, b'2')], Err((1, 12, 3))),
];

const LETTERS: [Case; 8] = [
    Case(SMALL, "", &[], Err((3, 2, 2))),
    Case(
        SMALL,
        "SBSBSBSBSBSBSBSBSBSBSBSBSBSBSBSBSBSBSBSBSBSBSBSBSBSBSBSBSBSBSBSBS",
        &[],
        Err((3, 2, 2)),
    ),
    Case(
        SMALL,
        "XBSBSBSBSBSBSBSBSBSBSBSBSBSBSBSBSBSBSBSBSBSBSBSBSBSBSBSBSBSBSBSBS",
        &[],
        Err((3, 2, 2)),
    ),
    Case(SMALL, "SX", &[], Err((3, 3, 1))),
    Case(SMALL, "sB", &[], Err((3, 3, 0))),
    Case(SMALL, "Sb ", &[], Err((3, 3, 1))),
    Case(SMALL, "SX", &[Cut(0)], Err((3, 3, 1))),
    Case(SMALL, "BS", &[], Err((2, 18, 800))),
];

const ORDER: [Case; 14] = [
    Case(SMALL, "SB", &[Word(8, 31)], Err((1, 13, 1))),
    Case(SMALL, "SB", &[Word(16, 415)], Err((1, 13, 2))),
    Case(SMALL, "SB", &[Word(24, 799)], Err((1, 13, 3))),
    Case(SMALL, "SB", &[Cut(811)], Err((1, 13, 3))),
    Case(SMALL, "SB", &[Word(24, 801)], Err((1, 13, 3))),
    Case(SMALL, "SB", &[Word(24, 812), Word(28, 0)], Ok(())),
    Case(SMALL, "SB", &[Word(24, 813), Word(28, 0)], Err((1, 13, 3))),
    Case(
        SMALL,
        "SB",
        &[Word(24, 0xffff_fffc), Word(28, 12)],
        Err((1, 13, 3)),
    ),
    Case(
        SMALL,
        "SB",
        &[Word(24, 0xffff_ffff), Word(28, 0xffff_ffff)],
        Err((1, 13, 3)),
    ),
    Case(
        SMALL,
        "SB",
        &[Word(8, 0xffff_ffe0), Word(12, 0x40)],
        Err((1, 13, 1)),
    ),
    Case(SMALL, "SB", &[Word(12, 0xffff_ffff)], Err((1, 13, 1))),
    Case(SMALL, "SB", &[Word(8, 31), Byte(7, 1)], Err((1, 12, 7))),
    Case(
        SMALL,
        "SB",
        &[Word(12, 383), Word(24, 799)],
        Err((1, 13, 3)),
    ),
    Case(
        SMALL,
        "SB",
        &[Word(16, 415), Word(24, 799)],
        Err((1, 13, 2)),
    ),
];

const LENGTHS: [Case; 16] = [
    Case(Shape("S", 0, 0), "S", &[Word(12, 191)], Err((1, 14, 1))),
    Case(SMALL, "SB", &[Word(12, 383)], Err((1, 14, 1))),
    Case(SMALL, "SB", &[Word(20, 380)], Err((1, 14, 2))),
    Case(SMALL, "SB", &[Word(28, 11)], Err((1, 14, 3))),
    Case(SMALL, "SB", &[Word(28, 0)], Ok(())),
    Case(
        SMALL,
        "SB",
        &[Word(20, 380), Word(12, 383)],
        Err((1, 14, 1)),
    ),
    Case(SMALL, "SB", &[Byte(5, 3)], Err((1, 14, 1))),
    Case(SMALL, "SB", &[Byte(5, 0)], Err((1, 14, 1))),
    Case(Shape("SB", 256, 0), "SB", &[], Ok(())),
    Case(Shape("SB", 257, 0), "SB", &[], Err((1, 14, 3))),
    Case(SMALL, "SBB", &[], Err((2, 15, 5))),
    Case(SMALL, "S", &[], Err((2, 15, 5))),
    Case(SMALL, "SBB", &[Word(28, 11)], Err((1, 14, 3))),
    Case(SMALL, "SBB", &[Word(32, MINUS_ONE)], Err((2, 15, 5))),
    Case(
        Shape("SB", 1, 7),
        "SB",
        &[Byte(32, 255), Byte(423, 255)],
        Ok(()),
    ),
    Case(
        Shape(
            "SBSBSBSBSBSBSBSBSBSBSBSBSBSBSBSBSBSBSBSBSBSBSBSBSBSBSBSBSBSBSBSB",
            256,
            3,
        ),
        "SBSBSBSBSBSBSBSBSBSBSBSBSBSBSBSBSBSBSBSBSBSBSBSBSBSBSBSBSBSBSBSB",
        &[],
        Ok(()),
    ),
];

const NUMBERS: [Case; 20] = [
    Case(
        SMALL,
        "SB",
        &[Word(32, 4_000_000), Word(36, 4_000_000)],
        Ok(()),
    ),
    Case(SMALL, "SB", &[Word(32, 4_000_001)], Err((2, 16, 32))),
    Case(SMALL, "SB", &[Word(32, MINUS_ONE)], Err((2, 16, 32))),
    Case(SMALL, "SB", &[Word(36, 4_000_001)], Err((2, 16, 36))),
    Case(SMALL, "SB", &[Word(36, 0xffc2_f700)], Ok(())),
    Case(SMALL, "SB", &[Word(36, 0xffc2_f6ff)], Err((2, 16, 36))),
    Case(SMALL, "SB", &[Word(412, 4_000_000)], Ok(())),
    Case(SMALL, "SB", &[Word(412, MINUS_ONE)], Err((2, 16, 412))),
    Case(SMALL, "SB", &[Word(408, 0x8000_0000)], Err((2, 16, 408))),
    Case(
        SMALL,
        "SB",
        &[Word(416, 5_000_000), Word(604, 5_000_000)],
        Ok(()),
    ),
    Case(SMALL, "SB", &[Word(416, 5_000_001)], Err((2, 16, 416))),
    Case(SMALL, "SB", &[Word(604, 0xffb3_b4c0)], Ok(())),
    Case(SMALL, "SB", &[Word(604, 0xffb3_b4bf)], Err((2, 16, 604))),
    Case(SMALL, "SB", &[Word(608, 1)], Err((2, 17, 608))),
    Case(SMALL, "SB", &[Word(796, MINUS_ONE)], Err((2, 17, 796))),
    Case(SMALL, "SB", &[Word(608, 5_000_001)], Err((2, 17, 608))),
    Case(
        SMALL,
        "SB",
        &[Word(608, 1), Word(412, MINUS_ONE)],
        Err((2, 16, 412)),
    ),
    Case(
        SMALL,
        "SB",
        &[Word(608, 1), Byte(802, 0)],
        Err((2, 17, 608)),
    ),
    Case(
        SMALL,
        "SB",
        &[Word(36, 4_000_001), Word(32, 4_000_001)],
        Err((2, 16, 32)),
    ),
    Case(
        SMALL,
        "SB",
        &[Word(612, 1), Word(604, 5_000_001)],
        Err((2, 16, 604)),
    ),
];

const CONTRACTS: [Case; 18] = [
    Case(SMALL, "SB", &[Byte(800, 2)], Err((2, 18, 800))),
    Case(SMALL, "SB", &[Byte(800, 1)], Err((2, 18, 800))),
    Case(SMALL, "SB", &[Byte(801, 0)], Err((2, 18, 800))),
    Case(SMALL, "SB", &[Byte(801, 255)], Err((2, 18, 800))),
    Case(SMALL, "SB", &[Byte(802, 0)], Err((2, 18, 800))),
    Case(SMALL, "SB", &[Byte(802, 1)], Ok(())),
    Case(SMALL, "SB", &[Byte(802, 25)], Err((2, 18, 800))),
    Case(SMALL, "SB", &[Byte(803, 1)], Err((2, 18, 800))),
    Case(SMALL, "SB", &[Word(804, 0)], Err((2, 18, 800))),
    Case(SMALL, "SB", &[Word(804, 1)], Ok(())),
    Case(SMALL, "SB", &[Word(804, 4_000_001)], Err((2, 18, 800))),
    Case(SMALL, "SB", &[Word(804, MINUS_ONE)], Err((2, 18, 800))),
    Case(SMALL, "SB", &[Word(808, 5_000_001)], Err((2, 18, 800))),
    Case(SMALL, "SB", &[Word(808, 0xffb3_b4c0)], Ok(())),
    Case(SMALL, "SB", &[Word(808, 0xffb3_b4bf)], Err((2, 18, 800))),
    Case(
        Shape("SB", 3, 0),
        "SB",
        &[Byte(814, 0), Byte(827, 1)],
        Err((2, 18, 812)),
    ),
    Case(
        Shape("SB", 256, 0),
        "SB",
        &[Byte(3862, 25)],
        Err((2, 18, 3860)),
    ),
    Case(Shape("SB", 2, 5), "SB", &[Byte(829, 25)], Err((2, 18, 827))),
];

/// Each case of a table has the answer wanted.
fn hold(rt: &impl Abort, heap: Global, cases: &[Case]) -> Result<(), Fail> {
    for case in cases {
        let wanted = case.3.map_err(refusal);
        assert_eq!(rt; answer(heap, *case)?, wanted);
    }
    Ok(())
}

#[test]
fn header_and_length(rt: HostRuntime) -> Result<(), Fail> {
    hold(&rt, rt.alloc(), &HEADER)
}

#[test]
fn letters_come_first(rt: HostRuntime) -> Result<(), Fail> {
    hold(&rt, rt.alloc(), &LETTERS)
}

#[test]
fn sections_in_order(rt: HostRuntime) -> Result<(), Fail> {
    hold(&rt, rt.alloc(), &ORDER)
}

#[test]
fn section_lengths(rt: HostRuntime) -> Result<(), Fail> {
    hold(&rt, rt.alloc(), &LENGTHS)
}

#[test]
fn quantities_and_prices(rt: HostRuntime) -> Result<(), Fail> {
    hold(&rt, rt.alloc(), &NUMBERS)
}

#[test]
fn contract_records(rt: HostRuntime) -> Result<(), Fail> {
    hold(&rt, rt.alloc(), &CONTRACTS)
}
