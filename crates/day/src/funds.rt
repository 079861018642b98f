/// The three funds of a day, in fen.
#[derive(Clone, Copy, Debug, PartialEq, Eq)]
pub struct Funds {
    pub difference: i64,
    pub mismatch: i64,
    pub rounding: i64,
}
