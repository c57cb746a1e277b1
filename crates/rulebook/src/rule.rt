ghost use Rattle.std.specs.Prelude.{◌≡◌};
ghost use Rattle.rulebook.specs.Legs.{map_legs};
ghost use Rattle.rulebook.specs.Reading.{listing_at, limits_of, settlement_of};
ghost use Rattle.rulebook.specs.Rules.{RuleMeaning, LawfulRule};

use crate::legs::{Bounds, Leg, LegPlace, Legs};
use records::contract::Contract;
use records::instrument::Instrument;
use records::terms::ContractTerms;

// What the market asks about an instrument's record. Asking changes nothing.
pub trait InstrumentRule {
    // what the rule tells
    ghost meaning: { Self → RuleMeaning };

    // Whether the rule owns the kind code.
    fn owns(&self, kind: u32) -> bool
        ensures { result ≡ (meaning self.now).owns kind };

    // Whether the instrument is admitted among the listed contracts.
    fn admits(&self, instrument: &Instrument, contracts: &[Contract]) -> bool
        ensures { result ≡ (meaning self.now).admits instrument.now (listing_at contracts.now) };

    // The legs, in the order in which they trade, each with what a purchase does in it.
    fn legs(&self, instrument: &Instrument) -> Legs<Leg>
        ensures { result ≡ (meaning self.now).legs instrument.now };

    // The price of a leg at a match price; `terms` are those of the legs' contracts.
    fn leg_price(
        &self,
        instrument: &Instrument,
        leg: LegPlace,
        price: i32,
        terms: &Legs<ContractTerms>,
    ) -> i64
        ensures { result ≡ (meaning self.now).leg_price instrument.now leg price (map_legs settlement_of terms.now) };

    // The price bounds; `terms` are those of the legs' contracts.
    fn bounds(&self, instrument: &Instrument, terms: &Legs<ContractTerms>) -> Bounds
        ensures { result ≡ (meaning self.now).bounds instrument.now (map_legs limits_of terms.now) };

    // Whether orders may have an expiry date.
    fn may_be_dated(&self, instrument: &Instrument) -> bool
        ensures { result ≡ (meaning self.now).dated instrument.now };

    ghost lawful: { (s : Self) → LawfulRule (meaning s) };
}
