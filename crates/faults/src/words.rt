ghost use Rattle.std.specs.Prelude.{Some};
ghost use Rattle.faults.specs.Words.{section_words, file_words, record_words, month_words};

use crate::causes::{FileFault, MonthFault, RecordFault, Section};
use std::error::Error;
use std::fmt;

impl fmt::Display for Section {
    ghost output = { λ section. Some (section_words section) };

    fn fmt<W: fmt::Write>(&self, f: &mut fmt::Formatter<W>) -> fmt::Result {
        f.write_str(match self {
            Section::Quantities => "quantities",
            Section::NodePrices => "node prices",
            Section::Contracts => "contracts",
        })
    }
}

impl fmt::Display for FileFault {
    ghost output = { λ fault. Some (file_words fault) };

    fn fmt<W: fmt::Write>(&self, f: &mut fmt::Formatter<W>) -> fmt::Result {
        match self {
            FileFault::TooShort(_) => f.write_str("shorter than the header of 32 bytes"),
            FileFault::WrongByte(_) => f.write_str("a wrong byte in the header"),
            FileFault::OutOfOrder(section) => {
                write!(f, "the {section} start too early or end past the file")
            }
            FileFault::WrongLength(section) => write!(f, "the {section} have a wrong length"),
        }
    }
}

impl Error for FileFault {}

impl fmt::Display for RecordFault {
    ghost output = { λ fault. Some (record_words fault) };

    fn fmt<W: fmt::Write>(&self, f: &mut fmt::Formatter<W>) -> fmt::Result {
        match self {
            RecordFault::File(fault) => write!(f, "{fault}"),
            RecordFault::PartyCount => f.write_str("the file has another number of parties"),
            RecordFault::BeyondLimits(_) => {
                f.write_str("a quantity or a seller's price beyond its limits")
            }
            RecordFault::BuyerPrice(_) => f.write_str("a buyer's price that is not 0"),
            RecordFault::Contract(_) => f.write_str("a contract that breaks a rule"),
        }
    }
}

impl Error for RecordFault {}

impl fmt::Display for MonthFault {
    ghost output = { λ fault. Some (month_words fault) };

    fn fmt<W: fmt::Write>(&self, f: &mut fmt::Formatter<W>) -> fmt::Result {
        match self {
            MonthFault::DayCount => f.write_str("not 28 to 31 days"),
            MonthFault::PartyCount => f.write_str("not 1 to 64 parties"),
            MonthFault::ReferencePrice => f.write_str("the reference price beyond its limits"),
            MonthFault::Letter(_) => f.write_str("a letter that is neither S nor B"),
            MonthFault::Record(fault) => write!(f, "{fault}"),
        }
    }
}

impl Error for MonthFault {}
