/// The largest weight of a party.
pub(crate) const MOST_WEIGHT: u64 = 2_976_000_000;

/// The largest product of a fund and the total of the counted weights.
pub(crate) const MOST_PRODUCT: u64 = 9_000_000_000_000_000_000;
