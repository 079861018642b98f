ghost use Rattle.std.specs.Prelude.{◌<◌};

use std::fmt;

/// An amount in a unit of which a yuan has `PER`, a power of 10. It is printed with yuan before the point, and as many digits
/// after it as `PER` has zeros.
// The sign stands apart: the least number of 64 bits has no negative.
#[derive(Clone, Copy)]
pub(crate) struct Yuan<const PER: u64> {
    negative: bool,
    size: u64,
    ghost some: { 0 < PER },
}

pub(crate) type Fen = Yuan<100>;

pub(crate) type Mil = Yuan<1000>;

pub(crate) type Micro = Yuan<1_000_000>;

impl<const PER: u64> Yuan<PER> {
    pub(crate) fn new(amount: i64) -> Yuan<PER>
        requires { 0 < PER }
    {
        Yuan {
            negative: amount < 0,
            size: amount.unsigned_abs(),
        }
    }

    /// The amount without its sign.
    pub(crate) fn abs(self) -> Yuan<PER> {
        Yuan {
            negative: false,
            size: self.size,
        }
    }
}

impl<const PER: u64> fmt::Display for Yuan<PER> {
    fn fmt<W: fmt::Write>(&self, f: &mut fmt::Formatter<W>) -> fmt::Result {
        let sign = if self.negative { "-" } else { "" };
        let yuan = self.size / PER;
        let rest = self.size % PER;
        let digits = PER.ilog10() as usize;
        write!(f, "{sign}{yuan}.{rest:0digits$}")
    }
}
