use records::terms::{AccountTerms, ContractTerms, InstrumentTerms};
use sheet::call::Call;
use sheet::entry::Entry;
use sheet::question::Question;
use sheet::reading::read_line;
use sheet::set_up::SetUp;
use std::test::Fail;

fn contract(line: &[u8]) -> Result<ContractTerms, Fail> {
    match read_line(line) {
        Ok(Some(Entry::Call(Call::ListContract(terms)))) => Ok(terms),
        _ => Err(Fail::new("no contract")),
    }
}

fn instrument(line: &[u8]) -> Result<InstrumentTerms, Fail> {
    match read_line(line) {
        Ok(Some(Entry::Call(Call::ListInstrument(terms)))) => Ok(terms),
        _ => Err(Fail::new("no instrument")),
    }
}

#[test]
fn a_contract_has_seven_fields_in_any_order(rt: HostRuntime) -> Result<(), Fail> {
    let terms = contract(
        b"list contract r=2 w=3 upper=1100 settlement=1000 lower=-900 last-day=90 underlying=7",
    )?;
    assert_eq!(rt; terms.underlying, 7);
    assert_eq!(rt; terms.last_day, 90);
    assert_eq!(rt; terms.lower, -900);
    assert_eq!(rt; terms.settlement, 1_000);
    assert_eq!(rt; terms.upper, 1_100);
    assert_eq!(rt; terms.w, 3);
    assert_eq!(rt; terms.r, 2);
    Ok(())
}

#[test]
fn an_instrument_may_have_one_contract(rt: HostRuntime) -> Result<(), Fail> {
    let spread = instrument(b"\tlist \t instrument kind=2 second=5 first=4 lower=-50 upper=100 ")?;
    assert_eq!(rt; spread.kind, 2);
    assert_eq!(rt; spread.first, 4);
    assert_eq!(rt; spread.second, Some(5));
    assert_eq!(rt; spread.lower, -50);
    assert_eq!(rt; spread.upper, 100);
    let single = instrument(b"list instrument kind=1 first=4 lower=1 upper=2")?;
    assert_eq!(rt; single.second, None);
    Ok(())
}

fn account(line: &[u8]) -> Option<(u32, u32)> {
    match read_line(line) {
        Ok(
            Some(
                Entry::Call(
                    Call::AdmitAccount(
                        AccountTerms {
                            participant,
                            taxpayer,
                        },
                    ),
                ),
            ),
        ) => Some((participant, taxpayer)),
        _ => None,
    }
}

fn settled(line: &[u8]) -> Option<SetUp> {
    match read_line(line) {
        Ok(Some(Entry::SetUp(set_up))) => Some(set_up),
        _ => None,
    }
}

#[test]
fn set_up_entries_and_accounts(rt: HostRuntime) {
    assert_eq!(rt;
        settled(b"memory trades=6 orders=5"),
        Some(SetUp::Memory {
            orders: 5,
            trades: 6
        })
    );
    assert_eq!(rt;
        settled(b"lots limit=4 contract=3"),
        Some(SetUp::Lots {
            contract: 3,
            limit: 4
        })
    );
    assert_eq!(rt;
        settled(b"pledge account=1 amount=9"),
        Some(SetUp::Pledge {
            account: 1,
            amount: 9
        })
    );
    assert_eq!(rt;
        settled(b"margin contract=2 amount=8"),
        Some(SetUp::Margin {
            contract: 2,
            amount: 8
        })
    );
    assert_eq!(rt;
        account(b"admit account taxpayer=501 participant=11"),
        Some((11, 501))
    );
}

fn asked(line: &[u8]) -> Option<Question> {
    match read_line(line) {
        Ok(Some(Entry::Question(question))) => Some(question),
        _ => None,
    }
}

#[test]
fn questions(rt: HostRuntime) {
    assert_eq!(rt;
        asked(b"show contract number=1"),
        Some(Question::Contract(1))
    );
    assert_eq!(rt;
        asked(b"show instrument number=2"),
        Some(Question::Instrument(2))
    );
    assert_eq!(rt; asked(b"show account number=3"), Some(Question::Account(3)));
    assert_eq!(rt;
        asked(b"show position contract=5 account=4"),
        Some(Question::Position {
            account: 4,
            contract: 5
        })
    );
    assert_eq!(rt; asked(b"show money account=6"), Some(Question::Money(6)));
    assert_eq!(rt; asked(b"show order number=7"), Some(Question::Order(7)));
    assert_eq!(rt; asked(b"show trade number=8"), Some(Question::Trade(8)));
    assert_eq!(rt; asked(b"show market"), Some(Question::Market));
}

// The title of the name of a line's entry.
fn title(line: &[u8]) -> &'static str {
    match read_line(line) {
        Ok(Some(entry)) => entry.name().title(),
        _ => "",
    }
}

#[test]
fn entries_have_names(rt: HostRuntime) {
    assert_eq!(rt; title(b"margin contract=1 amount=1"), "margin");
    assert_eq!(rt;
        title(b"  admit\taccount participant=1 taxpayer=1"),
        "admit account"
    );
    assert_eq!(rt; title(b"suspend"), "suspend");
    assert_eq!(rt; title(b"show money account=1"), "show money");
    assert_eq!(rt; title(b"show money"), "");
}
