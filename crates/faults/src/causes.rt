ghost use Rattle.std.specs.Prelude.{◌≡◌};
ghost use Rattle.faults.specs.declared.causes.RecordFault.TheVariants.{File};
ghost use Rattle.faults.specs.declared.causes.MonthFault.TheVariants.{Record};

/// A section of a day's file; its number is that of the header's pair that says where it lies.
#[derive(Clone, Copy, Debug, PartialEq, Eq)]
pub enum Section {
    Quantities = 1,
    NodePrices = 2,
    Contracts = 3,
}

/// What is wrong with a file before a record of it is read.
#[derive(Clone, Copy, Debug, PartialEq, Eq)]
pub enum FileFault {
    /// fewer than 32 bytes; how many there are
    TooShort(usize),
    /// a byte of the header is not the one wanted there; its offset
    WrongByte(usize),
    /// a section starts too early or ends past the file
    OutOfOrder(Section),
    /// a section's length is not one that the party count of the file allows
    WrongLength(Section),
}

/// What is wrong with a file as a set of records for given parties.
#[derive(Clone, Copy, Debug, PartialEq, Eq)]
pub enum RecordFault {
    /// the file itself is at fault
    File(FileFault),
    /// the file's party count is not the number of parties
    PartyCount,
    /// a quantity, or a seller's price, is beyond its limits; the offset of the number
    BeyondLimits(usize),
    /// a buyer's price is not 0; the offset of the number
    BuyerPrice(usize),
    /// a contract breaks a rule; the offset of its first byte
    Contract(usize),
}

/// Why a call of a month is refused.
#[derive(Clone, Copy, Debug, PartialEq, Eq)]
pub enum MonthFault {
    /// a month has 28 to 31 days
    DayCount,
    /// a month has 1 to 64 parties
    PartyCount,
    /// the reference price is beyond the limits of a price
    ReferencePrice,
    /// a letter is neither S nor B; its index
    Letter(usize),
    /// the file or one of its records is at fault
    Record(RecordFault),
}

impl From<FileFault> for RecordFault {
    ghost from_gives = { λ e r. r ≡ File e };

    fn from(e: FileFault) -> RecordFault {
        RecordFault::File(e)
    }
}

impl From<RecordFault> for MonthFault {
    ghost from_gives = { λ e r. r ≡ Record e };

    fn from(e: RecordFault) -> MonthFault {
        MonthFault::Record(e)
    }
}
