use records::codes::Direction;
use records::contract::Contract;
use records::instrument::Instrument;
use records::terms::{ContractTerms, InstrumentTerms};
use rulebook::asking::bounds_now;
use rulebook::futures::FuturesRule;
use rulebook::joined::{EXCHANGE_RULES, Joined};
use rulebook::legs::{Leg, LegPlace, Legs};
use rulebook::reading::{leg_terms, listing_at, terms_at};
use rulebook::rule::InstrumentRule;
use rulebook::spread::SpreadRule;
use std::test::Fail;

const NEARBY: ContractTerms = ContractTerms {
    underlying: 7,
    last_day: 90,
    lower: 900,
    settlement: 1_000,
    upper: 1_100,
    w: 3,
    r: 2,
};

const DISTANT: ContractTerms = ContractTerms {
    last_day: 180,
    lower: 950,
    settlement: 1_040,
    upper: 1_200,
    ..NEARBY
};

fn of_kind(kind: u32, first: u32, second: Option<u32>, lower: i32, upper: i32) -> InstrumentTerms {
    InstrumentTerms {
        kind,
        first,
        second,
        lower,
        upper,
    }
}

fn futures(first: u32) -> InstrumentTerms {
    of_kind(1, first, None, 0, 0)
}

fn spread(first: u32, second: Option<u32>) -> InstrumentTerms {
    of_kind(2, first, second, -50, 100)
}

// Whether the rule admits an instrument with these terms among two contracts with these.
fn admits<R: InstrumentRule>(
    rule: &R,
    terms: InstrumentTerms,
    first: ContractTerms,
    second: ContractTerms,
) -> Option<bool> {
    let instrument = Instrument::new(terms)?;
    let first = Contract::new(first)?;
    let second = Contract::new(second)?;
    Some(rule.admits(&instrument, &[first, second]))
}

// Whether the rules of the exchange admit it.
fn admitted(terms: InstrumentTerms) -> Option<bool> {
    admits(&EXCHANGE_RULES, terms, NEARBY, DISTANT)
}

#[test]
fn futures_are_admitted(rt: HostRuntime) {
    assert_eq!(rt; admitted(futures(1)), Some(true));
    assert_eq!(rt; admitted(futures(2)), Some(true));
    assert_eq!(rt; admitted(futures(3)), Some(false));
    assert_eq!(rt; admitted(of_kind(1, 1, Some(2), 0, 0)), Some(false));
    assert_eq!(rt; admitted(of_kind(1, 1, None, -1, 0)), Some(false));
    assert_eq!(rt; admitted(of_kind(1, 1, None, 0, 1)), Some(false));
    assert_eq!(rt; admitted(of_kind(3, 1, None, 0, 0)), Some(false));
    assert_eq!(rt;
        admits(&FuturesRule, futures(1), NEARBY, DISTANT),
        Some(true)
    );
    assert_eq!(rt;
        admits(&SpreadRule, futures(1), NEARBY, DISTANT),
        Some(false)
    );
}

#[test]
fn spreads_are_admitted(rt: HostRuntime) {
    let same_day = ContractTerms {
        last_day: 90,
        ..DISTANT
    };
    let next_day = ContractTerms {
        last_day: 91,
        ..DISTANT
    };
    let other = ContractTerms {
        underlying: 8,
        ..DISTANT
    };
    assert_eq!(rt; admitted(spread(1, Some(2))), Some(true));
    assert_eq!(rt; admitted(spread(2, Some(1))), Some(false));
    assert_eq!(rt; admitted(spread(1, Some(1))), Some(false));
    assert_eq!(rt; admitted(spread(1, None)), Some(false));
    assert_eq!(rt; admitted(spread(1, Some(3))), Some(false));
    assert_eq!(rt; admitted(spread(3, Some(2))), Some(false));
    assert_eq!(rt;
        admits(&EXCHANGE_RULES, spread(1, Some(2)), NEARBY, same_day),
        Some(false)
    );
    assert_eq!(rt;
        admits(&EXCHANGE_RULES, spread(1, Some(2)), NEARBY, next_day),
        Some(true)
    );
    assert_eq!(rt;
        admits(&EXCHANGE_RULES, spread(1, Some(2)), NEARBY, other),
        Some(false)
    );
    assert_eq!(rt;
        admits(&SpreadRule, spread(1, Some(2)), NEARBY, DISTANT),
        Some(true)
    );
    assert_eq!(rt;
        admits(&FuturesRule, spread(1, Some(2)), NEARBY, DISTANT),
        Some(false)
    );
}

// A leg's contract, and 1 or 2 for what an order of this direction does in it.
fn told(leg: &Leg, order: Direction) -> (u32, u32) {
    (leg.contract, u32::from(leg.direction_in(order)))
}

#[test]
fn a_purchase_of_a_spread_sells_the_nearby_contract(rt: HostRuntime) -> Result<(), Fail> {
    let Some(instrument) = Instrument::new(spread(1, Some(2))) else {
        return Err(Fail::new("no instrument"));
    };
    let Legs::Two(nearby, distant) = EXCHANGE_RULES.legs(&instrument) else {
        return Err(Fail::new("not two legs"));
    };
    assert_eq!(rt; told(&nearby, Direction::Buy), (1, 2));
    assert_eq!(rt; told(&distant, Direction::Buy), (2, 1));
    assert_eq!(rt; told(&nearby, Direction::Sell), (1, 1));
    assert_eq!(rt; told(&distant, Direction::Sell), (2, 2));
    Ok(())
}

#[test]
fn a_purchase_of_futures_buys_the_contract(rt: HostRuntime) -> Result<(), Fail> {
    let Some(instrument) = Instrument::new(futures(1)) else {
        return Err(Fail::new("no instrument"));
    };
    let Legs::One(leg) = EXCHANGE_RULES.legs(&instrument) else {
        return Err(Fail::new("not one leg"));
    };
    assert_eq!(rt; told(&leg, Direction::Buy), (1, 1));
    assert_eq!(rt; told(&leg, Direction::Sell), (1, 2));
    Ok(())
}

#[test]
fn the_legs_keep_their_order(rt: HostRuntime) {
    let none: Legs<u32> = Legs::NoLeg;
    assert_eq!(rt; none.map(|n| n / 2), Legs::NoLeg);
    assert_eq!(rt; Legs::One(7u32).map(|n| n / 2), Legs::One(3));
    assert_eq!(rt; Legs::Two(4u32, 7).map(|n| n / 2), Legs::Two(2, 3));
}

// How many legs an instrument has under any rule, and whether its orders may be dated.
fn shape<R: InstrumentRule>(rule: &R, terms: InstrumentTerms) -> Option<(u32, bool)> {
    let instrument = Instrument::new(terms)?;
    let legs = match rule.legs(&instrument) {
        Legs::NoLeg => 0,
        Legs::One(_) => 1,
        Legs::Two(_, _) => 2,
    };
    Some((legs, rule.may_be_dated(&instrument)))
}

#[test]
fn records_have_legs_and_dates(rt: HostRuntime) {
    let turned = Joined {
        first: SpreadRule,
        second: FuturesRule,
    };
    assert_eq!(rt; shape(&EXCHANGE_RULES, futures(1)), Some((1, true)));
    assert_eq!(rt;
        shape(&EXCHANGE_RULES, of_kind(1, 1, Some(2), 5, 6)),
        Some((1, true))
    );
    assert_eq!(rt;
        shape(&EXCHANGE_RULES, spread(1, Some(2))),
        Some((2, false))
    );
    assert_eq!(rt;
        shape(&EXCHANGE_RULES, spread(1, Some(1))),
        Some((0, false))
    );
    assert_eq!(rt; shape(&EXCHANGE_RULES, spread(1, None)), Some((0, false)));
    assert_eq!(rt;
        shape(&EXCHANGE_RULES, of_kind(3, 1, Some(2), 0, 0)),
        Some((0, false))
    );
    assert_eq!(rt; shape(&turned, futures(1)), Some((1, true)));
    assert_eq!(rt; shape(&turned, spread(1, Some(2))), Some((2, false)));
    assert_eq!(rt;
        shape(
            &Joined {
                first: FuturesRule,
                second: FuturesRule,
            },
            spread(1, Some(2)),
        ),
        Some((0, false))
    );
}

// The price of a leg at a match price, under any rule, where contract 1 is settled at this price.
fn price<R: InstrumentRule>(
    rule: &R,
    terms: InstrumentTerms,
    leg: LegPlace,
    price: i32,
    nearby: i32,
) -> Option<i64> {
    let instrument = Instrument::new(terms)?;
    let first = Contract::new(ContractTerms {
        lower: -1_000_000,
        settlement: nearby,
        upper: 1_000_000,
        ..NEARBY
    })?;
    let second = Contract::new(DISTANT)?;
    let terms = leg_terms(&[first, second], &rule.legs(&instrument));
    Some(rule.leg_price(&instrument, leg, price, &terms))
}

// The price of a leg of the spread of the two contracts, under the exchange's rules.
fn spread_price(leg: LegPlace, struck: i32, nearby: i32) -> Option<i64> {
    price(&EXCHANGE_RULES, spread(1, Some(2)), leg, struck, nearby)
}

#[test]
fn legs_of_a_spread_have_prices(rt: HostRuntime) {
    assert_eq!(rt; spread_price(LegPlace::First, 12, 1_000), Some(1_000));
    assert_eq!(rt; spread_price(LegPlace::Second, 12, 1_000), Some(1_012));
    assert_eq!(rt;
        spread_price(LegPlace::Second, 1_000_000, 1_000_000),
        Some(2_000_000)
    );
    assert_eq!(rt;
        spread_price(LegPlace::Second, -1_000_000, -1_000_000),
        Some(-2_000_000)
    );
    assert_eq!(rt;
        price(
            &SpreadRule,
            spread(1, Some(2)),
            LegPlace::Second,
            -12,
            -1_000,
        ),
        Some(-1_012)
    );
}

// The price of the first leg of any instrument struck at 12 under the exchange's rules.
fn first_price(terms: InstrumentTerms) -> Option<i64> {
    price(&EXCHANGE_RULES, terms, LegPlace::First, 12, 1_000)
}

#[test]
fn legs_that_are_not_there_read_as_nought(rt: HostRuntime) {
    assert_eq!(rt; first_price(spread(1, None)), Some(0));
    assert_eq!(rt; first_price(of_kind(3, 1, Some(2), 0, 0)), Some(0));
    assert_eq!(rt;
        price(
            &EXCHANGE_RULES,
            spread(3, Some(2)),
            LegPlace::Second,
            12,
            1_000,
        ),
        Some(12)
    );
}

#[test]
fn a_futures_leg_has_the_price_struck(rt: HostRuntime) {
    assert_eq!(rt; first_price(futures(1)), Some(12));
    assert_eq!(rt;
        price(&EXCHANGE_RULES, futures(1), LegPlace::First, -5, 1_000),
        Some(-5)
    );
    assert_eq!(rt;
        price(&FuturesRule, futures(1), LegPlace::First, 1_000_000, 0),
        Some(1_000_000)
    );
}

// The bounds under any rule, as lower and upper, among the two contracts.
fn bounds<R: InstrumentRule>(rule: &R, terms: InstrumentTerms) -> Option<(i32, i32)> {
    let instrument = Instrument::new(terms)?;
    let first = Contract::new(NEARBY)?;
    let second = Contract::new(DISTANT)?;
    let told = bounds_now(rule, &instrument, &[first, second]);
    Some((told.lower, told.upper))
}

#[test]
fn bounds_are_the_contracts_or_the_records(rt: HostRuntime) {
    assert_eq!(rt; bounds(&EXCHANGE_RULES, futures(1)), Some((900, 1_100)));
    assert_eq!(rt; bounds(&FuturesRule, futures(1)), Some((900, 1_100)));
    assert_eq!(rt; bounds(&EXCHANGE_RULES, futures(2)), Some((950, 1_200)));
    assert_eq!(rt; bounds(&EXCHANGE_RULES, futures(3)), Some((0, 0)));
    assert_eq!(rt;
        bounds(&EXCHANGE_RULES, spread(1, Some(2))),
        Some((-50, 100))
    );
    assert_eq!(rt; bounds(&SpreadRule, spread(1, Some(2))), Some((-50, 100)));
    assert_eq!(rt; bounds(&EXCHANGE_RULES, spread(1, Some(1))), Some((0, 0)));
    assert_eq!(rt; bounds(&EXCHANGE_RULES, spread(1, None)), Some((0, 0)));
    assert_eq!(rt;
        bounds(&EXCHANGE_RULES, of_kind(3, 1, Some(2), -50, 100)),
        Some((0, 0))
    );
    assert_eq!(rt; bounds(&FuturesRule, spread(1, Some(2))), Some((0, 0)));
}

#[test]
fn codes_are_owned(rt: HostRuntime) {
    assert!(rt; !EXCHANGE_RULES.owns(0));
    assert!(rt; EXCHANGE_RULES.owns(1));
    assert!(rt; EXCHANGE_RULES.owns(2));
    assert!(rt; !EXCHANGE_RULES.owns(3));
    assert!(rt; !FuturesRule.owns(2));
    assert!(rt; !SpreadRule.owns(1));
}

#[test]
fn contracts_that_are_not_listed_read_as_noughts(rt: HostRuntime) -> Result<(), Fail> {
    let Some(contract) = Contract::new(NEARBY) else {
        return Err(Fail::new("no contract"));
    };
    let contracts = [contract];
    assert_eq!(rt; terms_at(&contracts, 1).settlement, 1_000);
    assert_eq!(rt; terms_at(&contracts, 0).settlement, 0);
    assert_eq!(rt; terms_at(&contracts, 2).last_day, 0);
    assert_eq!(rt; terms_at(&contracts, u32::MAX).upper, 0);
    assert_eq!(rt; terms_at(&[], 1).w, 0);
    assert!(rt; listing_at(&contracts, 1).is_some());
    assert!(rt; listing_at(&contracts, 0).is_none());
    assert!(rt; listing_at(&contracts, 2).is_none());
    assert!(rt; listing_at(&[], 1).is_none());
    Ok(())
}
