use records::register::{OrderRegister, Register};
use records::rows::{OrderRow, Trade};
use records::terms::Ticket;
use std::test::Fail;

const TICKET: Ticket = Ticket {
    account: 1,
    instrument: 2,
    direction: 1,
    order_type: 0,
    price: 12,
    size: 40,
    addressee: None,
    reference: None,
    expiry: None,
};

const ROW: OrderRow = OrderRow {
    ticket: TICKET,
    size: 40,
    filled: 0,
    remaining: 40,
    withdrawn: 0,
    ending: None,
};

const HOST: Trade = Trade {
    contract: 99,
    buying_order: 99,
    selling_order: 99,
    quantity: 99,
    price: -99,
};

const TRADE: Trade = Trade {
    contract: 1,
    buying_order: 2,
    selling_order: 3,
    quantity: 15,
    price: 1_000,
};

fn price_at(trades: &[Trade], at: usize) -> i32 {
    if at < trades.len() {
        trades[at].price
    } else {
        0
    }
}

#[test]
fn a_register_of_no_place_takes_nothing(rt: HostRuntime) {
    let mut places = [HOST; 0];
    let mut trades = Register::begin(&mut places);
    assert_eq!(rt; trades.len(), 0);
    assert!(rt; trades.get(0).is_none());
    assert!(rt; trades.get(1).is_none());
    assert!(rt; trades.get(usize::MAX).is_none());
    assert!(rt; trades.replace(0, TRADE).is_none());
    assert!(rt; trades.replace(1, TRADE).is_none());
    assert_eq!(rt; trades.enter(TRADE), None);
    assert_eq!(rt; trades.len(), 0);
}

#[test]
fn a_register_of_one_place_takes_one(rt: HostRuntime) -> Result<(), Fail> {
    let mut places = [HOST; 1];
    let mut trades = Register::begin(&mut places);
    assert!(rt; trades.get(1).is_none());
    assert!(rt; trades.replace(1, TRADE).is_none());
    assert_eq!(rt; trades.enter(TRADE), Some(1));
    assert_eq!(rt; trades.enter(HOST), None);
    assert_eq!(rt; trades.len(), 1);
    let first = trades.get(1).ok_or("no record")?;
    assert_eq!(rt; first.price, 1_000);
    assert!(rt; trades.get(0).is_none());
    assert!(rt; trades.get(2).is_none());
    assert!(rt; trades.get(usize::MAX).is_none());
    Ok(())
}

#[test]
fn replacing_at_an_unknown_number_changes_nothing(rt: HostRuntime) -> Result<(), Fail> {
    let mut places = [HOST; 1];
    let mut trades = Register::begin(&mut places);
    assert!(rt; trades.replace(1, TRADE).is_none());
    assert_eq!(rt; trades.enter(TRADE), Some(1));
    assert!(rt; trades.replace(0, HOST).is_none());
    assert!(rt; trades.replace(2, HOST).is_none());
    assert!(rt; trades.replace(usize::MAX, HOST).is_none());
    let old = trades
        .replace(
            1,
            Trade {
                price: 1_012,
                ..TRADE
            },
        )
        .ok_or("no record")?;
    assert_eq!(rt; old.price, 1_000);
    assert_eq!(rt; price_at(&places, 0), 1_012);
    Ok(())
}

#[test]
fn beginning_leaves_the_host_its_content(rt: HostRuntime) {
    let mut places = [HOST; 1];
    let mut trades = Register::begin(&mut places);
    assert!(rt; trades.replace(1, TRADE).is_none());
    assert_eq!(rt; price_at(&places, 0), -99);
}

#[test]
fn unused_places_keep_what_the_host_had(rt: HostRuntime) -> Result<(), Fail> {
    let mut places = [HOST; 3];
    let mut trades = Register::begin(&mut places);
    assert_eq!(rt; trades.enter(TRADE), Some(1));
    assert_eq!(rt;
        trades.enter(Trade {
            price: 1_012,
            ..TRADE
        }),
        Some(2)
    );
    assert!(rt; trades.replace(3, TRADE).is_none());
    let second = trades.get(2).ok_or("no record")?;
    assert_eq!(rt; second.price, 1_012);
    assert_eq!(rt; trades.records().len(), 2);
    assert_eq!(rt; price_at(trades.records(), 1), 1_012);
    assert_eq!(rt; price_at(&places, 0), 1_000);
    assert_eq!(rt; price_at(&places, 1), 1_012);
    assert_eq!(rt; price_at(&places, 2), -99);
    Ok(())
}

#[test]
fn orders_have_a_register_too(rt: HostRuntime) -> Result<(), Fail> {
    let mut places = [ROW; 2];
    let mut orders: OrderRegister = Register::begin(&mut places);
    assert_eq!(rt; orders.len(), 0);
    assert_eq!(rt;
        orders.enter(OrderRow {
            filled: 15,
            remaining: 25,
            ..ROW
        }),
        Some(1)
    );
    let first = orders.get(1).ok_or("no record")?;
    assert_eq!(rt; first.remaining, 25);
    assert!(rt; orders.get(2).is_none());
    Ok(())
}
