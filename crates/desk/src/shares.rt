use crate::words::{WordFault, next_number, next_word};
use crate::yuan::Fen;
use arrayvec::ArrayVec;
use market::{Either, MAX_PARTIES};
use sharing::{ExactPart, LargestRemainder, Running, Unshareable, divide, exact_part};
use std::fmt;
use std::str::SplitWhitespace;

/// How many weights of a line are kept: one more than there may be parties stands for too many.
const KEPT_WEIGHTS: usize = MAX_PARTIES + 1;

/// What `divide` asks for: a sharing rule, a fund in fen, and the weights of the parties.
// No `Vec`: a line may have any number of weights, and needs no heap for them.
#[derive(Drop)]
pub(crate) struct Division {
    rule: Either<LargestRemainder, Running>,
    fund: i64,
    weights: ArrayVec<u64, KEPT_WEIGHTS>,
}

/// A fund divided, and the shares in fen; past the last party there stand zeros.
// An array, as `divide` answers it: the library has no heap.
#[derive(Clone, Copy)]
pub(crate) struct Shares<'a> {
    division: &'a Division,
    shares: [i64; MAX_PARTIES],
}

/// One party's share beside its exact part of the fund's size.
#[derive(Clone, Copy)]
struct Portion {
    party: usize,
    share: i64,
    fund: i64,
    part: ExactPart,
}

/// A rule by its name. A function and no `TryFrom`: the types are other crates'. One for both families of rules would need a table of names and values.
fn rule_of(word: &str) -> Result<Either<LargestRemainder, Running>, WordFault<'_>> {
    match word {
        "largest-remainder" => Ok(Either::First(LargestRemainder)),
        "running" => Ok(Either::Second(Running)),
        _ => Err(WordFault::NoRule(word)),
    }
}

impl Division {
    /// Reads the words `SHARING FUND WEIGHT..`.
    pub(crate) fn parse<'a>(mut words: SplitWhitespace<'a>) -> Result<Division, WordFault<'a>> {
        let rule = rule_of(next_word(&mut words)?)?;
        let fund = next_number(&mut words)?;
        let mut weights = ArrayVec::new();
        for word in words {
            let weight = word.parse().map_err(|_| WordFault::NoWeight(word))?;
            // where there is no room, there are too many already
            let _ = weights.try_push(weight);
        }
        Ok(Division {
            rule,
            fund,
            weights,
        })
    }

    /// The shares in fen, or why there are none.
    pub(crate) fn shares(&self) -> Result<Shares<'_>, Unshareable> {
        let shares = divide(&self.rule, &self.weights, self.fund)?;
        Ok(Shares {
            division: self,
            shares,
        })
    }

    /// A party's share beside its exact part; none where there is no such party.
    fn portion(&self, party: usize, share: i64) -> Option<Portion> {
        let fund = self.fund;
        let part = exact_part(&self.rule, &self.weights, fund, party)?;
        Some(Portion {
            party,
            share,
            fund,
            part,
        })
    }
}

impl fmt::Display for Portion {
    fn fmt<W: fmt::Write>(&self, f: &mut fmt::Formatter<W>) -> fmt::Result {
        let ExactPart {
            weight,
            total,
            whole,
            rest,
        } = self.part;
        let party = self.party;
        let share = self.share;
        let yuan = Fen::new(share);
        let sign = if self.fund < 0 && (whole != 0 || rest != 0) {
            "minus "
        } else {
            ""
        };
        write!(
            f,
            "  party {party:>2} counts {weight} of {total}: exactly {sign}{whole}"
        )?;
        if rest != 0 {
            write!(f, " and {rest}/{total}")?;
        }
        write!(f, " fen, share {share} fen or {yuan} yuan")
    }
}

impl Shares<'_> {
    fn write_row<W: fmt::Write>(&self, f: &mut fmt::Formatter<W>) -> fmt::Result {
        for share in self.shares.iter().take(self.division.weights.len()) {
            write!(f, " {share}")?;
        }
        Ok(())
    }
}

impl fmt::Display for Shares<'_> {
    fn fmt<W: fmt::Write>(&self, f: &mut fmt::Formatter<W>) -> fmt::Result {
        self.write_row(f)?;
        let numbered = self.shares.iter().enumerate();
        for portion in numbered.filter_map(|(party, share)| self.division.portion(party, *share)) {
            write!(f, "\n{portion}")?;
        }
        Ok(())
    }
}
