use crate::words::WordFault;
use bills::Beyond;
use faults::MonthFault;
use sharing::Unshareable;
use std::error::Error;
use std::{fmt, io};

/// Why a command is not answered with ok.
#[derive(Debug, Drop)]
pub(crate) enum Failure<'a> {
    Words(WordFault<'a>),
    /// no file can be read by this path
    Unreadable(&'a str),
    /// the day's file or its letters are refused
    Refused(MonthFault),
    Beyond(Beyond),
    Unshareable(Unshareable),
    /// the answer is not printed: this ends the program
    Ends(io::Error),
}

impl fmt::Display for Failure<'_> {
    fn fmt<W: fmt::Write>(&self, f: &mut fmt::Formatter<W>) -> fmt::Result {
        match self {
            Failure::Words(fault) => write!(f, "error ({fault})"),
            Failure::Unreadable(path) => write!(f, "error (cannot read {path})"),
            Failure::Refused(fault) => {
                let refusal = fault.refusal();
                write!(
                    f,
                    "refused {} {} {} ({fault})",
                    refusal.layer, refusal.number, refusal.place
                )
            }
            Failure::Beyond(fault) => write!(f, "error ({fault})"),
            Failure::Unshareable(fault) => write!(f, "error ({fault})"),
            Failure::Ends(error) => write!(f, "error ({error})"),
        }
    }
}

impl Error for Failure<'_> {}

impl<'a> From<WordFault<'a>> for Failure<'a> {
    fn from(fault: WordFault<'a>) -> Failure<'a> {
        Failure::Words(fault)
    }
}

impl From<MonthFault> for Failure<'_> {
    fn from(fault: MonthFault) -> Self {
        Failure::Refused(fault)
    }
}

impl From<Beyond> for Failure<'_> {
    fn from(fault: Beyond) -> Self {
        Failure::Beyond(fault)
    }
}

impl From<Unshareable> for Failure<'_> {
    fn from(fault: Unshareable) -> Self {
        Failure::Unshareable(fault)
    }
}

impl From<io::Error> for Failure<'_> {
    fn from(error: io::Error) -> Self {
        Failure::Ends(error)
    }
}
