ghost use Rattle.std.specs.Prelude.{◌≡◌};
ghost use Rattle.rulebook.specs.Legs.{map_legs};
ghost use Rattle.rulebook.specs.Reading.{settlement_of};
ghost use Rattle.rulebook.specs.Spread.{months_of, follows as follows_in, nearby_settlement as settlement_in, spread};
ghost use Rattle.rulebook.specs.SpreadLaws.{spread_lawful};

use crate::legs::{Bounds, Leg, LegPlace, Legs, NO_BOUNDS};
use crate::listing::Listing;
use crate::months::Months;
use crate::reading::listing_at;
use crate::rule::InstrumentRule;
use records::codes::Direction;
use records::contract::Contract;
use records::instrument::Instrument;
use records::terms::ContractTerms;

// The kind code of spreads: a number as keyed, since the list of kinds is open and any rule may own any code.
const SPREAD: u32 = 2;

// Calendar spreads of two contracts of one underlying. A spread's price is the distant price less the nearby price.
#[derive(Clone, Copy, Debug)]
pub struct SpreadRule;

// The months of a spread's record; none where it is no spread, or not of two different contracts.
fn months(instrument: &Instrument) -> Option<Months>
    ensures { result ≡ months_of instrument.now }
{
    let terms = instrument.terms;
    terms
        .second
        .filter(|second| terms.kind == SPREAD && *second != terms.first)
        .map(|second| Months {
            nearby: terms.first,
            distant: second,
        })
}

// Whether both contracts are listed, of one underlying, the second with the later last trading day.
fn follows(nearby: Option<Listing>, distant: Option<Listing>) -> bool
    ensures { result ≡ follows_in nearby distant }
{
    matches!(
        (nearby, distant),
        (Some(n), Some(d)) if n.underlying == d.underlying && n.last_day < d.last_day
    )
}

fn nearby_settlement(terms: &Legs<ContractTerms>) -> i32
    ensures { result ≡ settlement_in (map_legs settlement_of terms.now) }
{
    match terms {
        Legs::NoLeg => 0,
        Legs::One(nearby) | Legs::Two(nearby, _) => nearby.settlement,
    }
}

impl InstrumentRule for SpreadRule {
    ghost meaning = { λ _. spread };

    ghost lawful = { λ s. spread_lawful };

    fn owns(&self, kind: u32) -> bool {
        kind == SPREAD
    }

    fn admits(&self, instrument: &Instrument, contracts: &[Contract]) -> bool {
        months(instrument).is_some_and(|m| {
            follows(
                listing_at(contracts, m.nearby),
                listing_at(contracts, m.distant),
            )
        })
    }

    fn legs(&self, instrument: &Instrument) -> Legs<Leg> {
        months(instrument).map_or(Legs::NoLeg, |m| {
            Legs::Two(
                Leg {
                    contract: m.nearby,
                    in_purchase: Direction::Sell,
                },
                Leg {
                    contract: m.distant,
                    in_purchase: Direction::Buy,
                },
            )
        })
    }

    fn leg_price(
        &self,
        instrument: &Instrument,
        leg: LegPlace,
        price: i32,
        terms: &Legs<ContractTerms>,
    ) -> i64 {
        let nearby = i64::from(nearby_settlement(terms));
        match (months(instrument), leg) {
            (Some(_), LegPlace::First) => nearby,
            (Some(_), LegPlace::Second) => nearby + i64::from(price),
            (None, _) => 0,
        }
    }

    fn bounds(&self, instrument: &Instrument, _terms: &Legs<ContractTerms>) -> Bounds {
        if months(instrument).is_some() {
            Bounds {
                lower: instrument.terms.lower,
                upper: instrument.terms.upper,
            }
        } else {
            NO_BOUNDS
        }
    }

    fn may_be_dated(&self, _instrument: &Instrument) -> bool {
        false
    }
}
