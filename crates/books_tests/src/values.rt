use books::ledger::Ledger;
use books::value::{change_in, difference_in, value_in};
use records::account::Account;
use records::contract::Contract;
use records::rows::Trade;
use records::terms::{AccountTerms, ContractTerms};

fn terms(settlement: i32, w: u32, r: u32) -> ContractTerms {
    ContractTerms {
        underlying: 7,
        last_day: 90,
        lower: -1_000_000,
        settlement,
        upper: 1_000_000,
        w,
        r,
    }
}

// The value of a price in a contract with this W and R.
fn value(price: i32, w: u32, r: u32) -> Option<i64> {
    let contract = Contract::new(terms(0, w, r))?;
    Some(value_in(&contract, price))
}

#[test]
fn values_are_rounded_towards_nought(rt: HostRuntime) {
    assert_eq!(rt; value(1_000, 3, 2), Some(1_500));
    assert_eq!(rt; value(1_001, 3, 2), Some(1_501));
    assert_eq!(rt; value(-1_001, 3, 2), Some(-1_501));
    assert_eq!(rt; value(-21, 1, 2), Some(-10));
    assert_eq!(rt; value(-7, 3, 2), Some(-10));
    assert_eq!(rt; value(-1, 1, 1_000), Some(0));
    assert_eq!(rt; value(0, 1_000, 1), Some(0));
    assert_eq!(rt; value(2_000_000, 1_000, 1), Some(2_000_000_000));
    assert_eq!(rt; value(-2_000_000, 1_000, 1), Some(-2_000_000_000));
    assert_eq!(rt; value(i32::MAX, 1_000, 1), Some(2_147_483_647_000));
    assert_eq!(rt; value(i32::MIN, 1_000, 1), Some(-2_147_483_648_000));
}

// The value of a settlement price less that of another price.
fn difference(settlement: i32, price: i32, w: u32, r: u32) -> Option<i64> {
    let contract = Contract::new(terms(settlement, w, r))?;
    Some(difference_in(&contract, price))
}

// The value of a new settlement price less that of the present one.
fn change(settlement: i32, new: i32, w: u32, r: u32) -> Option<i64> {
    let contract = Contract::new(terms(settlement, w, r))?;
    Some(change_in(&contract, new))
}

#[test]
fn a_lot_gains_what_the_settlement_price_is_above_its_price(rt: HostRuntime) {
    assert_eq!(rt; difference(1_040, 1_012, 3, 2), Some(42));
    assert_eq!(rt; difference(1_000, 1_001, 3, 2), Some(-1));
    assert_eq!(rt; difference(-1_000, -1_001, 3, 2), Some(1));
    assert_eq!(rt;
        difference(1_000_000, -2_000_000, 1_000, 1),
        Some(3_000_000_000)
    );
    assert_eq!(rt;
        difference(-1_000_000, 2_000_000, 1_000, 1),
        Some(-3_000_000_000)
    );
}

#[test]
fn a_lot_held_gains_the_change_of_value(rt: HostRuntime) {
    assert_eq!(rt; change(1_000, 1_001, 3, 2), Some(1));
    assert_eq!(rt; change(-1, 1, 1, 2), Some(0));
    assert_eq!(rt; change(21, -21, 1, 2), Some(-20));
    assert_eq!(rt;
        change(-1_000_000, 1_000_000, 1_000, 1),
        Some(2_000_000_000)
    );
    assert_eq!(rt;
        change(1_000_000, -1_000_000, 1_000, 1),
        Some(-2_000_000_000)
    );
}

// Lots bought at a price, booked between accounts 1 and 2: the buyer's position and money.
fn bought(settlement: i32, price: i32, quantity: u32, w: u32, r: u32) -> Option<(i64, i64)> {
    let gain = difference(settlement, price, w, r)?;
    let account = Account::new(AccountTerms {
        participant: 11,
        taxpayer: 501,
    })?;
    let mut ledger = Ledger::new();
    ledger.admit(account)?;
    ledger.admit(account)?;
    let trade = Trade {
        contract: 1,
        buying_order: 1,
        selling_order: 2,
        quantity,
        price,
    };
    ledger.try_book(&trade, 1, 2, gain).ok()?;
    let buyer = ledger.get(1)?;
    Some((buyer.positions[0], buyer.money))
}

// The distant leg of a spread is struck at the nearby settlement price plus the spread's price.
#[test]
fn values_are_booked_from_end_to_end(rt: HostRuntime) {
    assert_eq!(rt; bought(1_040, 1_000 + 12, 15, 3, 2), Some((15, 630)));
    assert_eq!(rt; bought(1_040, 1_000 - 50, 15, 3, 2), Some((15, 2_025)));
    assert_eq!(rt; bought(-1_040, -1_000 - 51, 15, 3, 2), Some((15, 240)));
    assert_eq!(rt;
        bought(1_000_000, -2_000_000, 10_000, 1_000, 1),
        Some((10_000, 30_000_000_000_000))
    );
    assert_eq!(rt;
        bought(-1_000_000, 2_000_000, 10_000, 1_000, 1),
        Some((10_000, -30_000_000_000_000))
    );
}
