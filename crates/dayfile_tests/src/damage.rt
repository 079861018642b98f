use crate::build::{Shape, built, put, put_word};
use faults::{MonthFault, Refusal};
use scheduler::check_day;
use std::alloc::{AllocError, Global};

/// One place of a file changed: a byte or a number of four bytes at an offset, or the file cut to a length.
#[derive(Clone, Copy)]
pub(crate) enum Damage {
    Byte(usize, u8),
    Word(usize, u32),
    Cut(usize),
}

fn apply(file: &mut Vec<u8>, damage: Damage) {
    match damage {
        Damage::Byte(at, byte) => put(file.as_mut_slice(), at, &[byte]),
        Damage::Word(at, word) => put_word(file.as_mut_slice(), at, word),
        Damage::Cut(length) => file.truncate(length),
    }
}

/// A file, the letters that it is checked for, the places changed, and the answer wanted, a refusal as its layer, number and place.
#[derive(Clone, Copy)]
pub(crate) struct Case(
    pub(crate) Shape,
    pub(crate) &'static str,
    pub(crate) &'static [Damage],
    pub(crate) Result<(), (u8, u8, u64)>,
);

/// A refusal by its layer, number and place.
// The tables hold the three numbers: the value of a constant may call no function, and a literal of each would hide them.
pub(crate) fn refusal((layer, number, place): (u8, u8, u64)) -> Refusal {
    Refusal {
        layer,
        number,
        place,
    }
}

/// What the check answers to a case.
pub(crate) fn answer(heap: Global, case: Case) -> Result<Result<(), Refusal>, AllocError> {
    let Case(shape, letters, damages, _) = case;
    let mut file = built(heap, shape)?;
    for damage in damages {
        apply(&mut file, *damage);
    }
    Ok(check_day(file.as_slice(), letters.as_bytes()).map_err(MonthFault::refusal))
}
