use money::Amount;

/// Why a journal line was posted: a day was cleared, a reading corrected, a fund shared out.
#[derive(Clone, Copy, Debug, PartialEq, Eq)]
pub enum Cause {
    Day,
    Correction,
    Share,
}

/// A journal line: the number of the call that posted it, the day (0 for a share), the account, the cause and the fen. On a
/// party's account positive fen are owed by the party.
#[derive(Clone, Copy, Debug, PartialEq, Eq)]
pub struct Entry {
    pub call: u64,
    pub day: u8,
    pub account: u8,
    pub cause: Cause,
    pub fen: i64,
}

/// A journal line's amount is its fen.
impl Amount for Entry {
    ghost amount = { λ entry. entry.fen };

    fn amount(&self) -> i64 {
        self.fen
    }
}
