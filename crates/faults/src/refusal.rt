ghost use Rattle.std.specs.Prelude.{◌≡◌};
ghost use Rattle.faults.specs.Refusals.{refused, file_refusal, record_refusal, month_refusal};

use crate::answer::Refusal;
use crate::causes::{FileFault, MonthFault, RecordFault};

impl Refusal {
    fn new(layer: u8, number: u8, place: u64) -> Refusal
        ensures { result ≡ refused layer number place }
    {
        Refusal {
            layer,
            number,
            place,
        }
    }
}

// `refusal` is a method of each fault and no `From`, a form of docs/DECISIONS.md: it tells of a fault, and turns it into nothing.

impl FileFault {
    /// Layer, number and place of a file's fault: layer 1, numbers 11 to 14.
    pub fn refusal(self) -> Refusal
        ensures { result ≡ file_refusal self }
    {
        match self {
            FileFault::TooShort(length) => Refusal::new(1, 11, length as u64),
            FileFault::WrongByte(offset) => Refusal::new(1, 12, offset as u64),
            FileFault::OutOfOrder(section) => Refusal::new(1, 13, section as u64),
            FileFault::WrongLength(section) => Refusal::new(1, 14, section as u64),
        }
    }
}

impl RecordFault {
    /// Layer, number and place of a record's fault: a file's as it is, else layer 2, numbers 15 to 18.
    pub fn refusal(self) -> Refusal
        ensures { result ≡ record_refusal self }
    {
        match self {
            RecordFault::File(fault) => fault.refusal(),
            RecordFault::PartyCount => Refusal::new(2, 15, 5),
            RecordFault::BeyondLimits(offset) => Refusal::new(2, 16, offset as u64),
            RecordFault::BuyerPrice(offset) => Refusal::new(2, 17, offset as u64),
            RecordFault::Contract(offset) => Refusal::new(2, 18, offset as u64),
        }
    }
}

impl MonthFault {
    /// Layer, number and place of a month's fault: a record's as it is, else layer 3.
    pub fn refusal(self) -> Refusal
        ensures { result ≡ month_refusal self }
    {
        match self {
            MonthFault::DayCount => Refusal::new(3, 2, 1),
            MonthFault::PartyCount => Refusal::new(3, 2, 2),
            MonthFault::ReferencePrice => Refusal::new(3, 2, 3),
            MonthFault::Letter(index) => Refusal::new(3, 3, index as u64),
            MonthFault::Record(fault) => fault.refusal(),
        }
    }
}
