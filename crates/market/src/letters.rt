ghost use Rattle.std.specs.Prelude.{◌≡◌, map, IfOk};
ghost use Rattle.std.specs.Result.{result_err};
ghost use Rattle.faults.specs.Orders.{MonthEarlier};
ghost use Rattle.faults.specs.Rows.{first, Exact};
ghost use Rattle.market.specs.Letters.{side_of, letter_of, letter_rows};
ghost use Rattle.market.specs.Parties.{sides_in};

use crate::kinds::{Side, Sides};
use crate::limits::MAX_PARTIES;
use faults::MonthFault;

/// The side that a letter names; `index` is where it stands among the letters.
// A match on a `char` and no `TryFrom`, a form of docs/DECISIONS.md: the fault needs the index as well.
pub(crate) fn side_of(letter: char, index: usize) -> Result<Side, MonthFault>
    ensures { result ≡ side_of letter index }
{
    match letter {
        'S' => Ok(Side::Seller),
        'B' => Ok(Side::Buyer),
        _ => Err(MonthFault::Letter(index)),
    }
}

impl Sides {
    /// The sides that kind letters name, or what is wrong with the letters: their number first, then the first that is neither S nor B.
    pub fn from_letters(letters: &[u8]) -> Result<Sides, MonthFault>
        ensures fault { result_err result ≡ first (letter_rows letters.now) }
        ensures exact { Exact MonthEarlier (letter_rows letters.now) (result_err result) }
        ensures sides { IfOk result (λ s. map letter_of (sides_in s) ≡ letters.now) }
    {
        let count = letters.len();
        if !(1..=MAX_PARTIES).contains(&count) {
            return Err(MonthFault::PartyCount);
        }
        let mut slots = [Side::Seller; MAX_PARTIES];
        // By index: after a `zip` with `slots.iter_mut()` no proof knows what `slots` holds, so the clause `sides` stayed open.
        for (index, letter) in letters.iter().enumerate() {
            slots[index] = side_of(char::from(*letter), index)?;
        }
        Ok(Sides { count, slots })
    }

    /// The sides, one for each party.
    pub fn as_slice(&self) -> &[Side]
        ensures { result.now ≡ sides_in self.now }
    {
        &self.slots[..self.count]
    }
}
