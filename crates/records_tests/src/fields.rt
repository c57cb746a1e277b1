use records::account::Account;
use records::codes::{Direction, Ending, OrderType, Phase};
use records::contract::Contract;
use records::instrument::Instrument;
use records::terms::{AccountTerms, ContractTerms, InstrumentTerms, Ticket};
use std::test::Fail;

const CONTRACT: ContractTerms = ContractTerms {
    underlying: 7,
    last_day: 90,
    lower: 900,
    settlement: 1_000,
    upper: 1_100,
    w: 3,
    r: 2,
};

const SPREAD: InstrumentTerms = InstrumentTerms {
    kind: 2,
    first: 1,
    second: Some(2),
    lower: -50,
    upper: 100,
};

const TICKET: Ticket = Ticket {
    account: 1,
    instrument: 2,
    direction: 1,
    order_type: 0,
    price: 12,
    size: 40,
    addressee: None,
    reference: None,
    expiry: None,
};

// The number of the direction that is read from this one, or 9 where there is none.
fn direction_read(code: u32) -> u32 {
    Direction::try_from(code).map_or(9, u32::from)
}

// The number of the type that is read from this one, or 9 where there is none.
fn type_read(code: u32) -> u32 {
    OrderType::try_from(code).map_or(9, u32::from)
}

#[test]
fn codes_are_read(rt: HostRuntime) {
    assert_eq!(rt; direction_read(0), 9);
    assert_eq!(rt; direction_read(1), 1);
    assert_eq!(rt; direction_read(2), 2);
    assert_eq!(rt; direction_read(3), 9);
    assert_eq!(rt; direction_read(u32::MAX), 9);
    assert_eq!(rt; type_read(0), 0);
    assert_eq!(rt; type_read(1), 9);
    assert_eq!(rt; type_read(2), 9);
    assert_eq!(rt; type_read(3), 3);
    assert_eq!(rt; type_read(4), 4);
    assert_eq!(rt; type_read(5), 9);
    assert_eq!(rt; type_read(u32::MAX), 9);
}

#[test]
fn endings_and_phases_have_numbers(rt: HostRuntime) {
    assert_eq!(rt; Ending::code_of(None), 0);
    assert_eq!(rt; Ending::code_of(Some(Ending::Filled)), 1);
    assert_eq!(rt; Ending::code_of(Some(Ending::Withdrawn)), 2);
    assert_eq!(rt; Ending::code_of(Some(Ending::Removed)), 3);
    assert_eq!(rt; u32::from(Phase::Suspended), 0);
    assert_eq!(rt; u32::from(Phase::Trading), 1);
}

// Whether a contract with these numbers, and prices in order, is in range.
fn contract(underlying: u32, last_day: u32, w: u32, r: u32) -> bool {
    ContractTerms {
        underlying,
        last_day,
        w,
        r,
        ..CONTRACT
    }
    .are_in_range()
}

#[test]
fn contract_numbers(rt: HostRuntime) {
    assert!(rt; contract(1, 1, 1, 1));
    assert!(rt; contract(65_535, 100_000, 1_000, 1_000));
    assert!(rt; !contract(0, 1, 1, 1));
    assert!(rt; !contract(65_536, 1, 1, 1));
    assert!(rt; !contract(1, 0, 1, 1));
    assert!(rt; !contract(1, 100_001, 1, 1));
    assert!(rt; !contract(1, 1, 0, 1));
    assert!(rt; !contract(1, 1, 1_001, 1));
    assert!(rt; !contract(1, 1, 1, 0));
    assert!(rt; !contract(1, 1, 1, 1_001));
    assert!(rt; !contract(u32::MAX, u32::MAX, u32::MAX, u32::MAX));
}

// Whether a contract with these prices is in range.
fn prices(lower: i32, settlement: i32, upper: i32) -> bool {
    ContractTerms {
        lower,
        settlement,
        upper,
        ..CONTRACT
    }
    .are_in_range()
}

#[test]
fn contract_prices(rt: HostRuntime) {
    assert!(rt; prices(-1_000_000, 0, 1_000_000));
    assert!(rt; prices(-1_000_000, -1_000_000, -1_000_000));
    assert!(rt; prices(1_000_000, 1_000_000, 1_000_000));
    assert!(rt; !prices(-1_000_001, 0, 1_000_000));
    assert!(rt; !prices(-1_000_000, 0, 1_000_001));
    assert!(rt; !prices(i32::MIN, i32::MIN, i32::MAX));
    assert!(rt; prices(900, 900, 1_100));
    assert!(rt; !prices(900, 899, 1_100));
    assert!(rt; prices(900, 1_100, 1_100));
    assert!(rt; !prices(900, 1_101, 1_100));
    assert!(rt; !prices(1_100, 1_000, 900));
}

// Whether an instrument with these numbers is in range.
fn instrument(kind: u32, first: u32, second: Option<u32>) -> bool {
    InstrumentTerms {
        kind,
        first,
        second,
        ..SPREAD
    }
    .are_in_range()
}

// Whether an instrument with these bounds is in range.
fn bounds(lower: i32, upper: i32) -> bool {
    InstrumentTerms {
        lower,
        upper,
        ..SPREAD
    }
    .are_in_range()
}

#[test]
fn instrument_fields(rt: HostRuntime) {
    assert!(rt; instrument(1, 1, None));
    assert!(rt; instrument(1, 1, Some(1)));
    assert!(rt; instrument(255, 32, Some(32)));
    assert!(rt; !instrument(0, 1, None));
    assert!(rt; !instrument(256, 1, None));
    assert!(rt; !instrument(1, 0, None));
    assert!(rt; !instrument(1, 33, None));
    assert!(rt; !instrument(1, 1, Some(0)));
    assert!(rt; !instrument(1, 1, Some(33)));
    assert!(rt; bounds(-1_000_000, 1_000_000));
    assert!(rt; bounds(100, 100));
    assert!(rt; !bounds(101, 100));
    assert!(rt; !bounds(-1_000_001, 0));
    assert!(rt; !bounds(0, 1_000_001));
}

// Whether an account with these numbers is in range.
fn account(participant: u32, taxpayer: u32) -> bool {
    AccountTerms {
        participant,
        taxpayer,
    }
    .are_in_range()
}

#[test]
fn account_fields(rt: HostRuntime) {
    assert!(rt; account(1, 65_535));
    assert!(rt; account(65_535, 1));
    assert!(rt; !account(0, 1));
    assert!(rt; !account(1, 0));
    assert!(rt; !account(65_536, 1));
    assert!(rt; !account(1, 65_536));
}

// Whether a ticket with these numbers is in range.
fn ticket(direction: u32, order_type: u32, size: u32) -> bool {
    Ticket {
        direction,
        order_type,
        size,
        ..TICKET
    }
    .fields_in_range()
}

#[test]
fn ticket_numbers(rt: HostRuntime) {
    assert!(rt; ticket(1, 0, 1));
    assert!(rt; ticket(2, 3, 10_000));
    assert!(rt; ticket(1, 4, 1));
    assert!(rt; !ticket(0, 0, 1));
    assert!(rt; !ticket(3, 0, 1));
    assert!(rt; !ticket(u32::MAX, 0, 1));
    assert!(rt; !ticket(1, 1, 1));
    assert!(rt; !ticket(1, 2, 1));
    assert!(rt; !ticket(1, 5, 1));
    assert!(rt; !ticket(1, u32::MAX, 1));
    assert!(rt; !ticket(1, 0, 0));
    assert!(rt; !ticket(1, 0, 10_001));
    let any = Ticket {
        account: 0,
        instrument: u32::MAX,
        price: i32::MIN,
        ..TICKET
    };
    assert!(rt; any.fields_in_range());
}

// Whether a ticket with these fields is in range.
fn options(addressee: Option<u32>, reference: Option<u32>, expiry: Option<u32>) -> bool {
    Ticket {
        addressee,
        reference,
        expiry,
        ..TICKET
    }
    .fields_in_range()
}

#[test]
fn ticket_options(rt: HostRuntime) {
    assert!(rt; options(None, None, None));
    assert!(rt; options(Some(1), Some(1), Some(1)));
    assert!(rt; options(Some(65_535), Some(65_535), Some(100_000)));
    assert!(rt; !options(Some(0), None, None));
    assert!(rt; !options(Some(65_536), None, None));
    assert!(rt; !options(None, Some(0), None));
    assert!(rt; !options(None, Some(65_536), None));
    assert!(rt; !options(None, None, Some(0)));
    assert!(rt; !options(None, None, Some(100_001)));
}

#[test]
fn records_are_made_of_terms_in_range(rt: HostRuntime) -> Result<(), Fail> {
    let Some(contract) = Contract::new(CONTRACT) else {
        return Err(Fail::new("no contract"));
    };
    assert_eq!(rt; contract.terms.settlement, 1_000);
    assert!(rt; Contract::new(ContractTerms { r: 0, ..CONTRACT }).is_none());
    let Some(instrument) = Instrument::new(SPREAD) else {
        return Err(Fail::new("no instrument"));
    };
    assert_eq!(rt; instrument.terms.upper, 100);
    assert!(rt; Instrument::new(InstrumentTerms { first: 0, ..SPREAD }).is_none());
    Ok(())
}

#[test]
fn an_account_begins_with_nought(rt: HostRuntime) -> Result<(), Fail> {
    let Some(account) = Account::new(AccountTerms {
        participant: 11,
        taxpayer: 501,
    }) else {
        return Err(Fail::new("no account"));
    };
    assert_eq!(rt; account.holder.terms.participant, 11);
    assert_eq!(rt; account.holder.terms.taxpayer, 501);
    assert_eq!(rt; account.lots_in(1), 0);
    assert_eq!(rt; account.lots_in(32), 0);
    assert_eq!(rt; account.money, 0);
    assert!(rt;
        Account::new(AccountTerms {
            participant: 0,
            taxpayer: 501,
        })
        .is_none()
    );
    Ok(())
}
