ghost use Rattle.std.specs.Prelude.{◌≡◌};
ghost use Rattle.rulebook.specs.Futures.{futures};
ghost use Rattle.rulebook.specs.FuturesLaws.{futures_lawful};

use crate::legs::{Bounds, Leg, LegPlace, Legs, NO_BOUNDS};
use crate::reading::listing_at;
use crate::rule::InstrumentRule;
use records::codes::Direction;
use records::contract::Contract;
use records::instrument::Instrument;
use records::terms::ContractTerms;

// The kind code of futures: a number as keyed, since the list of kinds is open and any rule may own any code.
const FUTURES: u32 = 1;

// Futures on one contract.
#[derive(Clone, Copy, Debug)]
pub struct FuturesRule;

impl InstrumentRule for FuturesRule {
    ghost meaning = { λ _. futures };

    ghost lawful = { λ s. futures_lawful };

    fn owns(&self, kind: u32) -> bool {
        kind == FUTURES
    }

    fn admits(&self, instrument: &Instrument, contracts: &[Contract]) -> bool {
        let terms = instrument.terms;
        terms.kind == FUTURES
            && terms.second.is_none()
            && terms.lower == 0
            && terms.upper == 0
            && listing_at(contracts, terms.first).is_some()
    }

    fn legs(&self, instrument: &Instrument) -> Legs<Leg> {
        if instrument.terms.kind == FUTURES {
            Legs::One(Leg {
                contract: instrument.terms.first,
                in_purchase: Direction::Buy,
            })
        } else {
            Legs::NoLeg
        }
    }

    fn leg_price(
        &self,
        instrument: &Instrument,
        _leg: LegPlace,
        price: i32,
        _terms: &Legs<ContractTerms>,
    ) -> i64 {
        if instrument.terms.kind == FUTURES {
            i64::from(price)
        } else {
            0
        }
    }

    fn bounds(&self, instrument: &Instrument, terms: &Legs<ContractTerms>) -> Bounds {
        match terms {
            Legs::One(contract) if instrument.terms.kind == FUTURES => Bounds {
                lower: contract.lower,
                upper: contract.upper,
            },
            _ => NO_BOUNDS,
        }
    }

    fn may_be_dated(&self, instrument: &Instrument) -> bool {
        instrument.terms.kind == FUTURES
    }
}
