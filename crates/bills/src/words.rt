ghost use Rattle.std.specs.Prelude.{Some};
ghost use Rattle.bills.specs.Words.{beyond_words};

use crate::asking::Beyond;
use std::error::Error;
use std::fmt;

/// The numbers are named as in the formulas: QD and QM are day-ahead and metered energy, PD and PR node prices, UD and UR
/// unified prices, QC and PC a contract's energy and price.
impl fmt::Display for Beyond {
    ghost output = { λ fault. Some (beyond_words fault) };

    fn fmt<W: fmt::Write>(&self, f: &mut fmt::Formatter<W>) -> fmt::Result {
        f.write_str(match self {
            Beyond::ContractCount => "more than 256 contracts",
            Beyond::DayAheadEnergy => "QD is not within 0 to 4000000 kWh",
            Beyond::MeteredEnergy => "QM is not within 0 to 4000000 kWh",
            Beyond::DayAheadPrice => "PD is not within -5000000 to 5000000 mil",
            Beyond::RealTimePrice => "PR is not within -5000000 to 5000000 mil",
            Beyond::DayAheadUnified => "UD is not within -5000000 to 5000000 mil",
            Beyond::RealTimeUnified => "UR is not within -5000000 to 5000000 mil",
            Beyond::ContractEnergy(_) => "QC is not within 0 to 4000000 kWh",
            Beyond::ContractPrice(_) => "PC is not within -5000000 to 5000000 mil",
        })
    }
}

impl Error for Beyond {}
