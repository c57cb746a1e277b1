use records::codes::{Direction, Ending, OrderType};
use records::order::Order;
use records::rows::OrderRow;
use records::terms::Ticket;
use std::test::Fail;

const TICKET: Ticket = Ticket {
    account: 1,
    instrument: 2,
    direction: 2,
    order_type: 0,
    price: -12,
    size: 40,
    addressee: Some(12),
    reference: Some(9),
    expiry: None,
};

const ROW: OrderRow = OrderRow {
    ticket: TICKET,
    size: 40,
    filled: 15,
    remaining: 25,
    withdrawn: 0,
    ending: None,
};

#[test]
fn a_sound_row_makes_its_order(rt: HostRuntime) -> Result<(), Fail> {
    let Ok(order) = Order::try_from(ROW) else {
        return Err(Fail::new("no order"));
    };
    assert_eq!(rt; order.direction, Direction::Sell);
    assert_eq!(rt; order.order_type, OrderType::Limit);
    assert_eq!(rt; order.ending, None);
    assert_eq!(rt; order.ticket.price, -12);
    assert_eq!(rt; order.ticket.reference, Some(9));
    assert_eq!(rt; order.size, 40);
    assert_eq!(rt; order.filled, 15);
    assert_eq!(rt; order.remaining, 25);
    assert_eq!(rt; order.withdrawn, 0);
    Ok(())
}

#[test]
fn an_order_is_active_while_something_remains(rt: HostRuntime) -> Result<(), Fail> {
    let filled = OrderRow {
        filled: 40,
        remaining: 0,
        ending: Some(Ending::Filled),
        ..ROW
    };
    let Ok(order) = Order::try_from(filled) else {
        return Err(Fail::new("no order"));
    };
    assert!(rt; !filled.is_active());
    assert!(rt; !order.is_active());
    let one = OrderRow {
        filled: 39,
        remaining: 1,
        ..ROW
    };
    let Ok(order) = Order::try_from(one) else {
        return Err(Fail::new("no order"));
    };
    assert!(rt; one.is_active());
    assert!(rt; order.is_active());
    Ok(())
}

// Whether a row with these quantities, its ticket of the same size, makes an order.
fn sums(size: u32, filled: u32, remaining: u32) -> bool {
    let ticket = Ticket { size, ..TICKET };
    Order::try_from(OrderRow {
        ticket,
        size,
        filled,
        remaining,
        ..ROW
    })
    .is_ok()
}

#[test]
fn quantities_that_do_not_add_up_make_none(rt: HostRuntime) {
    assert!(rt; sums(40, 15, 25));
    assert!(rt; !sums(40, 14, 25));
    assert!(rt; !sums(40, 16, 25));
    // 2^32 - 25 and 25 come to nought in 32 bits
    assert!(rt; !sums(0, u32::MAX - 24, 25));
    // but the largest size that a row can hold is one
    assert!(rt; sums(u32::MAX, u32::MAX - 25, 25));
    // the size is the ticket's
    assert!(rt;
        Order::try_from(OrderRow {
            size: 41,
            filled: 16,
            ..ROW
        })
        .is_err()
    );
}

#[test]
fn codes_that_are_none_make_none(rt: HostRuntime) {
    let ticket = Ticket {
        direction: 0,
        ..TICKET
    };
    assert!(rt; Order::try_from(OrderRow { ticket, ..ROW }).is_err());
    let ticket = Ticket {
        direction: 3,
        ..TICKET
    };
    assert!(rt; Order::try_from(OrderRow { ticket, ..ROW }).is_err());
    let ticket = Ticket {
        order_type: 5,
        ..TICKET
    };
    assert!(rt; Order::try_from(OrderRow { ticket, ..ROW }).is_err());
}

fn ended(filled: u32, remaining: u32, withdrawn: u32, ending: Option<Ending>) -> bool {
    Order::try_from(OrderRow {
        filled,
        remaining,
        withdrawn,
        ending,
        ..ROW
    })
    .is_ok()
}

#[test]
fn the_ending_is_the_one_that_the_quantities_tell(rt: HostRuntime) {
    assert!(rt; ended(0, 40, 0, None));
    assert!(rt; ended(39, 1, 0, None));
    assert!(rt; !ended(40, 0, 0, None));
    assert!(rt; ended(40, 0, 0, Some(Ending::Filled)));
    assert!(rt; !ended(39, 1, 0, Some(Ending::Filled)));
    assert!(rt; !ended(39, 0, 1, Some(Ending::Filled)));
    assert!(rt; ended(39, 0, 1, Some(Ending::Withdrawn)));
    assert!(rt; ended(0, 0, 40, Some(Ending::Removed)));
    assert!(rt; !ended(40, 0, 0, Some(Ending::Withdrawn)));
    assert!(rt; !ended(0, 1, 39, Some(Ending::Removed)));
    assert!(rt; !ended(0, 1, 39, None));
}
