use books::ledger::Ledger;
use records::account::Account;
use records::rows::Trade;
use records::terms::AccountTerms;
use std::test::Fail;

const TRADE: Trade = Trade {
    contract: 2,
    buying_order: 1,
    selling_order: 2,
    quantity: 15,
    price: 1_012,
};

// Three accounts.
fn three() -> Option<Ledger> {
    let mut ledger = Ledger::new();
    let account = Account::new(AccountTerms {
        participant: 11,
        taxpayer: 501,
    })?;
    ledger.admit(account)?;
    ledger.admit(account)?;
    ledger.admit(account)?;
    Some(ledger)
}

// An account's position in contract 2, and its money.
fn state(ledger: &Ledger, number: usize) -> (i64, i64) {
    ledger
        .get(number)
        .map_or((9, 9), |account| (account.lots_in(2), account.money))
}

#[test]
fn lots_and_money_pass_between_two_accounts(rt: HostRuntime) -> Result<(), Fail> {
    let Some(mut ledger) = three() else {
        return Err(Fail::new("no ledger"));
    };
    let before = ledger;
    assert!(rt; ledger.try_book(&TRADE, 1, 2, 42).is_ok());
    assert_eq!(rt; state(&ledger, 1), (15, 630));
    assert_eq!(rt; state(&ledger, 2), (-15, -630));
    assert_eq!(rt; state(&ledger, 3), (0, 0));
    assert_eq!(rt; state(&before, 1), (0, 0));
    assert!(rt; ledger.try_book(&TRADE, 2, 3, -42).is_ok());
    assert_eq!(rt; state(&ledger, 1), (15, 630));
    assert_eq!(rt; state(&ledger, 2), (0, -1_260));
    assert_eq!(rt; state(&ledger, 3), (-15, 630));
    Ok(())
}

#[test]
fn an_account_that_trades_with_itself_keeps_what_it_has(rt: HostRuntime) -> Result<(), Fail> {
    let Some(mut ledger) = three() else {
        return Err(Fail::new("no ledger"));
    };
    assert!(rt; ledger.try_book(&TRADE, 3, 3, 42).is_ok());
    assert_eq!(rt; state(&ledger, 3), (0, 0));
    Ok(())
}

#[test]
fn the_largest_trades_are_booked(rt: HostRuntime) -> Result<(), Fail> {
    let Some(mut ledger) = three() else {
        return Err(Fail::new("no ledger"));
    };
    let largest = Trade {
        quantity: 10_000,
        ..TRADE
    };
    assert!(rt; ledger.try_book(&largest, 1, 2, 3_000_000_000).is_ok());
    assert_eq!(rt; state(&ledger, 1), (10_000, 30_000_000_000_000));
    assert!(rt; ledger.try_book(&largest, 1, 2, -3_000_000_000).is_ok());
    assert_eq!(rt; state(&ledger, 1), (20_000, 0));
    assert_eq!(rt; state(&ledger, 2), (-20_000, 0));
    assert!(rt;
        ledger
            .try_book(
                &Trade {
                    quantity: 10_001,
                    ..TRADE
                },
                1,
                2,
                0,
            )
            .is_err()
    );
    assert!(rt; ledger.try_book(&largest, 1, 2, 3_000_000_001).is_err());
    assert!(rt; ledger.try_book(&largest, 1, 2, i64::MIN).is_err());
    assert_eq!(rt; state(&ledger, 1), (20_000, 0));
    Ok(())
}

#[test]
fn unknown_numbers_are_not_booked(rt: HostRuntime) -> Result<(), Fail> {
    let Some(mut ledger) = three() else {
        return Err(Fail::new("no ledger"));
    };
    assert!(rt; ledger.try_book(&TRADE, 0, 2, 42).is_err());
    assert!(rt; ledger.try_book(&TRADE, 1, 4, 42).is_err());
    assert!(rt;
        ledger
            .try_book(
                &Trade {
                    contract: 0,
                    ..TRADE
                },
                1,
                2,
                42,
            )
            .is_err()
    );
    assert!(rt;
        ledger
            .try_book(
                &Trade {
                    contract: 33,
                    ..TRADE
                },
                1,
                2,
                42,
            )
            .is_err()
    );
    assert!(rt;
        ledger
            .try_book(
                &Trade {
                    contract: 32,
                    ..TRADE
                },
                1,
                2,
                42,
            )
            .is_ok()
    );
    assert_eq!(rt; state(&ledger, 1), (0, 630));
    Ok(())
}

#[test]
fn no_lots_are_held_in_a_contract_that_there_is_not(rt: HostRuntime) -> Result<(), Fail> {
    let Some(mut ledger) = three() else {
        return Err(Fail::new("no ledger"));
    };
    assert!(rt; ledger.try_book(&TRADE, 1, 2, 42).is_ok());
    let Some(account) = ledger.get(1) else {
        return Err(Fail::new("no account"));
    };
    assert_eq!(rt; account.lots_in(2), 15);
    assert_eq!(rt; account.lots_in(1), 0);
    assert_eq!(rt; account.lots_in(0), 0);
    assert_eq!(rt; account.lots_in(33), 0);
    Ok(())
}

#[test]
fn a_new_settlement_price_revalues_positions(rt: HostRuntime) -> Result<(), Fail> {
    let Some(mut ledger) = three() else {
        return Err(Fail::new("no ledger"));
    };
    assert!(rt;
        ledger
            .try_book(
                &Trade {
                    quantity: 4,
                    ..TRADE
                },
                1,
                2,
                -1,
            )
            .is_ok()
    );
    assert_eq!(rt; state(&ledger, 1), (4, -4));
    assert!(rt; ledger.try_revalue(2, 1).is_ok());
    assert_eq!(rt; state(&ledger, 1), (4, 0));
    assert_eq!(rt; state(&ledger, 2), (-4, 0));
    assert!(rt; ledger.try_revalue(2, -2_000_000_000).is_ok());
    assert_eq!(rt; state(&ledger, 1), (4, -8_000_000_000));
    assert_eq!(rt; state(&ledger, 3), (0, 0));
    assert!(rt; ledger.try_revalue(1, 5).is_ok());
    assert!(rt; ledger.try_revalue(2, 2_000_000_001).is_err());
    assert!(rt; ledger.try_revalue(0, 1).is_err());
    assert!(rt; ledger.try_revalue(33, 1).is_err());
    assert_eq!(rt; state(&ledger, 2), (-4, 8_000_000_000));
    Ok(())
}

#[test]
fn there_are_at_most_64_accounts(rt: HostRuntime) -> Result<(), Fail> {
    let Some(account) = Account::new(AccountTerms {
        participant: 1,
        taxpayer: 1,
    }) else {
        return Err(Fail::new("no account"));
    };
    let mut ledger = Ledger::new();
    assert_eq!(rt; ledger.len(), 0);
    let mut last = 0;
    for _ in 0..64 {
        last = ledger.admit(account).unwrap_or(0);
    }
    assert_eq!(rt; last, 64);
    assert_eq!(rt; ledger.len(), 64);
    assert_eq!(rt; ledger.admit(account), None);
    assert_eq!(rt; ledger.len(), 64);
    Ok(())
}
