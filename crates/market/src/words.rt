ghost use Rattle.std.specs.Prelude.{Some};
ghost use Rattle.market.specs.Words.{side_words};

use crate::kinds::Side;
use std::fmt;

impl fmt::Display for Side {
    ghost output = { λ side. Some (side_words side) };

    fn fmt<W: fmt::Write>(&self, f: &mut fmt::Formatter<W>) -> fmt::Result {
        f.pad(match self {
            Side::Seller => "seller",
            Side::Buyer => "buyer",
        })
    }
}
