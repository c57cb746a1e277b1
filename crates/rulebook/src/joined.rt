ghost use Rattle.std.specs.Prelude.{◌≡◌};
ghost use Rattle.rulebook.specs.Joined.{joined, owner as owner_in};
ghost use Rattle.rulebook.specs.JoinedLaws.{joined_lawful};

use crate::futures::FuturesRule;
use crate::legs::{Bounds, Leg, LegPlace, Legs, NO_BOUNDS};
use crate::rule::InstrumentRule;
use crate::spread::SpreadRule;
use records::contract::Contract;
use records::instrument::Instrument;
use records::terms::ContractTerms;

// Two rules as one: the first that owns a record's kind code replies. Where neither does, the joined rule itself replies
// that the record is not admitted, has no leg, bounds of nought and no dated orders.
#[derive(Clone, Copy, Debug)]
pub struct Joined<A, B> {
    pub first: A,
    pub second: B,
}

// Which of two rules replies.
#[derive(Clone, Copy, Debug, PartialEq, Eq)]
pub enum Owner {
    First,
    Second,
}

// The rules of the exchange.
pub type ExchangeRules = Joined<FuturesRule, SpreadRule>;

pub const EXCHANGE_RULES: ExchangeRules = Joined {
    first: FuturesRule,
    second: SpreadRule,
};

impl<A: InstrumentRule, B: InstrumentRule> Joined<A, B> {
    // The first rule that owns the kind code, if one does.
    fn owner(&self, kind: u32) -> Option<Owner>
        ensures { result ≡ owner_in (A.InstrumentRule.meaning self.now.first) (B.InstrumentRule.meaning self.now.second) kind }
    {
        if self.first.owns(kind) {
            return Some(Owner::First);
        }
        self.second.owns(kind).then_some(Owner::Second)
    }
}

// A match for each question: the rules differ in type, so a shared method would take each call twice, as two closures.
impl<A: InstrumentRule, B: InstrumentRule> InstrumentRule for Joined<A, B> {
    ghost meaning = { λ s. joined (A.InstrumentRule.meaning s.first) (B.InstrumentRule.meaning s.second) };

    ghost lawful = { λ s. joined_lawful _ _ (A.InstrumentRule.lawful s.first) (B.InstrumentRule.lawful s.second) };

    fn owns(&self, kind: u32) -> bool {
        self.first.owns(kind) || self.second.owns(kind)
    }

    fn admits(&self, instrument: &Instrument, contracts: &[Contract]) -> bool {
        match self.owner(instrument.terms.kind) {
            Some(Owner::First) => self.first.admits(instrument, contracts),
            Some(Owner::Second) => self.second.admits(instrument, contracts),
            None => false,
        }
    }

    fn legs(&self, instrument: &Instrument) -> Legs<Leg> {
        match self.owner(instrument.terms.kind) {
            Some(Owner::First) => self.first.legs(instrument),
            Some(Owner::Second) => self.second.legs(instrument),
            None => Legs::NoLeg,
        }
    }

    fn leg_price(
        &self,
        instrument: &Instrument,
        leg: LegPlace,
        price: i32,
        terms: &Legs<ContractTerms>,
    ) -> i64 {
        match self.owner(instrument.terms.kind) {
            Some(Owner::First) => self.first.leg_price(instrument, leg, price, terms),
            Some(Owner::Second) => self.second.leg_price(instrument, leg, price, terms),
            None => 0,
        }
    }

    fn bounds(&self, instrument: &Instrument, terms: &Legs<ContractTerms>) -> Bounds {
        match self.owner(instrument.terms.kind) {
            Some(Owner::First) => self.first.bounds(instrument, terms),
            Some(Owner::Second) => self.second.bounds(instrument, terms),
            None => NO_BOUNDS,
        }
    }

    fn may_be_dated(&self, instrument: &Instrument) -> bool {
        match self.owner(instrument.terms.kind) {
            Some(Owner::First) => self.first.may_be_dated(instrument),
            Some(Owner::Second) => self.second.may_be_dated(instrument),
            None => false,
        }
    }
}
