ghost use Rattle.std.specs.Prelude.{◌≡◌, ◌<◌, ◌≤◌, map, length, take, sum, slice_index, None, IfOk};
ghost use Rattle.std.specs.Result.{result_err};
ghost use Rattle.sharing.specs.AsGiven.{as_given, counts_as};
ghost use Rattle.sharing.specs.Divisions.{unweighable};

use crate::division::Unshareable;
use crate::limits::MOST_WEIGHT;
use market::MAX_PARTIES;
use std::marker::Model;

/// The weights given to 1 to 64 parties, none above 2,976,000,000. A contract sees the list of them.
#[derive(Drop)]
pub struct Given<'a> {
    pub weights: &'a [u64],
}

impl<'a> Model for Given<'a> {
    ghost use Rattle.std.specs.Prelude.{ℕ, List};
    ghost use Rattle.sharing.specs.Limits.{Weights};

    ghost Value = { List ℕ };

    ghost view = { λ given. given.weights.now };

    ghost invariant = { λ given. Weights given.weights.now };
}

impl<'a> Given<'a> {
    /// Refuses weights by which no rule shares: their number first, then the first that is too large.
    pub fn new(weights: &'a [u64]) -> Result<Given<'a>, Unshareable>
        ensures refusal { result_err result ≡ unweighable weights.now None }
        ensures given { IfOk result (λ given. given ≡ weights.now) }
    {
        if !(1..=MAX_PARTIES).contains(&weights.len()) {
            return Err(Unshareable::PartyCount);
        }
        match weights.iter().position(|weight| *weight > MOST_WEIGHT) {
            Some(party) => Err(Unshareable::Weight(party)),
            None => Ok(Given { weights }),
        }
    }
}

/// How given weights count: as they are, or 1 each where all are 0.
#[derive(Clone, Copy)]
pub(crate) enum Counting {
    AsGiven,
    OneEach,
}

impl Counting {
    // How these weights count where nothing else is agreed.
    fn of(weights: &[u64]) -> Counting
        ensures { map (counts_as result) weights.now ≡ as_given weights.now }
    {
        // `position` and no `any` or `all`, which over weights of 0 take a third more instructions: this is asked anew for each party
        match weights.iter().position(|weight| *weight != 0) {
            Some(_) => Counting::AsGiven,
            None => Counting::OneEach,
        }
    }

    /// What a given weight counts.
    fn weight(self, given: u64) -> u64
        ensures { result ≡ counts_as self given }
    {
        match self {
            Counting::AsGiven => given,
            Counting::OneEach => 1,
        }
    }
}

/// Given weights, and how they count. A contract sees the list of what each counts.
#[derive(Drop)]
pub(crate) struct Counted<'a> {
    weights: &'a [u64],
    counting: Counting,
}

impl<'a> Model for Counted<'a> {
    ghost use Rattle.std.specs.Prelude.{ℕ, ◌<◌, List, map, sum};
    ghost use Rattle.sharing.specs.AsGiven.{counts_as};
    ghost use Rattle.sharing.specs.Limits.{Weights};

    ghost Value = { List ℕ };

    ghost view = { λ counted. map (counts_as counted.counting) counted.weights.now };

    // some weight counts
    ghost invariant = { λ counted. Weights counted.weights.now × (0 < sum (map (counts_as counted.counting) counted.weights.now)) };
}

impl<'a> Counted<'a> {
    /// The weights as they count where nothing else is agreed.
    pub(crate) fn of(given: &Given<'a>) -> Counted<'a>
        ensures value { result ≡ as_given given.now }
        ensures parties { length result ≡ length given.now }
    {
        let weights = given.weights;
        Counted {
            weights,
            counting: Counting::of(weights),
        }
    }

    /// What a party's weight counts.
    pub(crate) fn weight(&self, party: usize) -> u64
        requires { party < length self.now }
        ensures { result ≡ slice_index self.now party }
    {
        self.counting.weight(self.weights[party])
    }

    /// What the weights of the first n parties count together.
    pub(crate) fn up_to(&self, n: usize) -> u64
        requires { n ≤ length self.now }
        ensures { result ≡ sum (take n self.now) }
    {
        let counting = self.counting;
        self.weights[..n]
            .iter()
            .map(|weight| counting.weight(*weight))
            .sum()
    }

    /// What all weights count together.
    pub(crate) fn total(&self) -> u64
        ensures value { result ≡ sum self.now }
        ensures some { 0 < result }
    {
        self.up_to(self.weights.len())
    }
}
