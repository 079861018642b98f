ghost use Rattle.std.specs.Prelude.{Some};
ghost use Rattle.sharing.specs.Words.{unshareable_words};

use crate::division::Unshareable;
use std::error::Error;
use std::fmt;

impl fmt::Display for Unshareable {
    ghost output = { λ fault. Some (unshareable_words fault) };

    fn fmt<W: fmt::Write>(&self, f: &mut fmt::Formatter<W>) -> fmt::Result {
        match self {
            Unshareable::PartyCount => f.write_str("not 1 to 64 parties"),
            Unshareable::Weight(party) => {
                write!(
                    f,
                    "the weight of party {party} is not within 0 to 2976000000"
                )
            }
            Unshareable::Product => f.write_str(
                "the fund's size times the total of the counted weights is above 9000000000000000000",
            ),
        }
    }
}

impl Error for Unshareable {}
