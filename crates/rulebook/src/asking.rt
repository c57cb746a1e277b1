ghost use Rattle.std.specs.Prelude.{◌≡◌, true, is_some};
ghost use Rattle.records.specs.Ranges.{within, price_in_range};
ghost use Rattle.rulebook.specs.Legs.{leg_at};
ghost use Rattle.rulebook.specs.Rules.{BoundsInRange, bounds_now, price_now};

use crate::legs::{Bounds, LegPlace};
use crate::reading::leg_terms;
use crate::rule::InstrumentRule;
use records::contract::Contract;
use records::instrument::Instrument;

// The two questions have a function each: a struct of the three borrows would be made anew for every one that is asked.

// The price that the rule tells, before it is seen to fit a trade's price.
fn told_price<R: InstrumentRule>(
    rule: &R,
    instrument: &Instrument,
    leg: LegPlace,
    price: i32,
    contracts: &[Contract],
) -> i64
    ensures { result ≡ price_now (R.InstrumentRule.meaning rule.now) instrument.now leg price contracts.now }
{
    let terms = leg_terms(contracts, &rule.legs(instrument));
    rule.leg_price(instrument, leg, price, &terms)
}

// The price at which a leg trades among the listed contracts. It fits a trade's price for every rule, by the law on leg
// prices.
pub fn trade_price<R: InstrumentRule>(
    rule: &R,
    instrument: &Instrument,
    leg: LegPlace,
    price: i32,
    contracts: &[Contract],
) -> i32
    requires leg { is_some (leg_at leg ((R.InstrumentRule.meaning rule.now).legs instrument.now)) ≡ true }
    requires price { price_in_range price ≡ true }
    ensures value { result ≡ price_now (R.InstrumentRule.meaning rule.now) instrument.now leg price contracts.now }
    ensures bound { within 2000000 result ≡ true }
{
    told_price(rule, instrument, leg, price, contracts) as i32
}

// The price bounds among the listed contracts. They are in range for every rule, by the law on bounds.
pub fn bounds_now<R: InstrumentRule>(
    rule: &R,
    instrument: &Instrument,
    contracts: &[Contract],
) -> Bounds
    ensures value { result ≡ bounds_now (R.InstrumentRule.meaning rule.now) instrument.now contracts.now }
    ensures range { BoundsInRange result }
{
    let terms = leg_terms(contracts, &rule.legs(instrument));
    rule.bounds(instrument, &terms)
}
