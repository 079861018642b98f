use crate::words::{WordFault, end_of_words, next_number, next_word};
use crate::yuan::{Fen, Micro};
use bills::{Beyond, HourAmounts, bill, hour_amounts};
use books::{ThreePart, TwoPart};
use market::{Contract, Either, Line, Side, UnifiedPrices};
use money::to_fen;
use std::fmt;
use std::str::SplitWhitespace;

/// What `amounts` asks about: a rule book, a party's side, its contract and line of an hour, the hour's unified prices.
#[derive(Clone, Copy)]
pub(crate) struct Question {
    book: Either<ThreePart, TwoPart>,
    side: Side,
    contract: Contract,
    line: Line,
    unified: UnifiedPrices,
}

/// The amounts of the hour in micro, and what the party owes for it by the province's own formula.
#[derive(Clone, Copy)]
pub(crate) struct Amounts {
    side: Side,
    hour: HourAmounts,
    owed: i64,
}

/// An amount in micro that a party pays, or receives where it is negative.
#[derive(Clone, Copy)]
struct Payment {
    side: Side,
    micro: i64,
}

/// A rule book by its name. A function and no `TryFrom`: the types are other crates'. One for both families of rules would need a table of names and values.
fn book_of(word: &str) -> Result<Either<ThreePart, TwoPart>, WordFault<'_>> {
    match word {
        "three-part" => Ok(Either::First(ThreePart)),
        "two-part" => Ok(Either::Second(TwoPart)),
        _ => Err(WordFault::NoBook(word)),
    }
}

/// A side by its letter. A function and no `TryFrom`: the type is another crate's.
fn side_of(word: &str) -> Result<Side, WordFault<'_>> {
    match word {
        "S" => Ok(Side::Seller),
        "B" => Ok(Side::Buyer),
        _ => Err(WordFault::NoSide(word)),
    }
}

impl Question {
    /// Reads the words `BOOK SIDE QC PC QD QM PD PR UD UR`.
    pub(crate) fn parse<'a>(mut words: SplitWhitespace<'a>) -> Result<Question, WordFault<'a>> {
        let book = book_of(next_word(&mut words)?)?;
        let side = side_of(next_word(&mut words)?)?;
        let contract = Contract {
            seller: 0,
            buyer: 1,
            hour: 1,
            kwh: next_number(&mut words)?,
            price: next_number(&mut words)?,
        };
        let line = Line {
            day_ahead: next_number(&mut words)?,
            metered: next_number(&mut words)?,
            day_ahead_price: next_number(&mut words)?,
            real_time_price: next_number(&mut words)?,
        };
        let unified = UnifiedPrices {
            day_ahead: next_number(&mut words)?,
            real_time: next_number(&mut words)?,
        };
        end_of_words(words)?;
        Ok(Question {
            book,
            side,
            contract,
            line,
            unified,
        })
    }

    /// The amounts of the hour, or which number no rule book can be asked about.
    pub(crate) fn amounts(self) -> Result<Amounts, Beyond> {
        let Question {
            book,
            side,
            contract,
            line,
            unified,
        } = self;
        let hour = hour_amounts(&book, side, &[contract], line, unified)?;
        let owed = bill(&book, side, &[contract], line, unified)?;
        Ok(Amounts { side, hour, owed })
    }
}

impl fmt::Display for Payment {
    fn fmt<W: fmt::Write>(&self, f: &mut fmt::Formatter<W>) -> fmt::Result {
        let party = self.side;
        let verb = if self.micro < 0 { "receives" } else { "pays" };
        let yuan = Micro::new(self.micro).abs();
        write!(f, "the {party} {verb} {yuan} yuan")
    }
}

/// The four amounts in micro, and under them what they mean.
impl fmt::Display for Amounts {
    fn fmt<W: fmt::Write>(&self, f: &mut fmt::Formatter<W>) -> fmt::Result {
        let HourAmounts {
            contracts,
            spot,
            difference,
            mismatch,
        } = self.hour;
        let side = self.side;
        let owed = self.owed;
        let fen = Fen::new(to_fen(owed)).abs();
        let paid = |micro| Payment { side, micro };
        writeln!(f, " {contracts} {spot} {difference} {mismatch}")?;
        writeln!(f, "  contract charge: {}", paid(contracts))?;
        writeln!(f, "  spot charge: {}", paid(spot))?;
        writeln!(
            f,
            "  of it difference part: {}, what node prices add to unified ones",
            paid(difference)
        )?;
        writeln!(
            f,
            "  of it mismatch part: {}, the energy at unified prices",
            paid(mismatch)
        )?;
        write!(
            f,
            "  together, by the province's own formula: {}, rounded to {fen} yuan",
            paid(owed)
        )
    }
}
