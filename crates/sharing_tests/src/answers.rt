use sharing::{ExactPart, SharingRule, Unshareable, divide};

/// The shares of a fund, and zeros past the last party; none where the fund is refused.
pub(crate) fn shares<R: SharingRule>(rule: &R, given: &[u64], fund: i64) -> Option<[i64; 64]> {
    divide(rule, given, fund).ok()
}

/// Why a fund is refused; none where it is shared.
pub(crate) fn refusal<R: SharingRule>(rule: &R, given: &[u64], fund: i64) -> Option<Unshareable> {
    divide(rule, given, fund).err()
}

/// An exact part: its weight, the total, the whole fen and what is left of the division.
pub(crate) fn part(weight: u64, total: u64, whole: u64, rest: u64) -> Option<ExactPart> {
    Some(ExactPart {
        weight,
        total,
        whole,
        rest,
    })
}

/// The shares of the first three places, and zeros at all others.
pub(crate) fn padded(first: [i64; 3]) -> [i64; 64] {
    let mut shares = [0; 64];
    shares[..3].copy_from_slice(&first);
    shares
}
