use records::terms::InstrumentTerms;
use sheet::call::Call;
use sheet::entry::Entry;
use sheet::question::Question;
use sheet::reading::read_line;
use sheet::set_up::SetUp;

// The number of an order that is asked for.
fn number(line: &[u8]) -> Option<u32> {
    match read_line(line) {
        Ok(Some(Entry::Question(Question::Order(number)))) => Some(number),
        _ => None,
    }
}

#[test]
fn unsigned_numbers(rt: HostRuntime) {
    assert_eq!(rt; number(b"show order number=0"), Some(0));
    assert_eq!(rt; number(b"show order number=0007"), Some(7));
    assert_eq!(rt;
        number(b"show order number=4294967295"),
        Some(4_294_967_295)
    );
    assert_eq!(rt;
        number(b"show order number=00000000000000000000004294967295"),
        Some(4_294_967_295)
    );
    assert_eq!(rt; number(b"show order number=4294967296"), None);
    assert_eq!(rt; number(b"show order number=18446744073709551616"), None);
    assert_eq!(rt;
        number(b"show order number=99999999999999999999999999999999999999999999"),
        None
    );
    assert_eq!(rt; number(b"show order number="), None);
    assert_eq!(rt; number(b"show order number=-0"), None);
    assert_eq!(rt; number(b"show order number=+1"), None);
    assert_eq!(rt; number(b"show order number=1a"), None);
    assert_eq!(rt; number(b"show order number=1=1"), None);
    assert_eq!(rt; number(b"show order number=\xd9\xa1"), None);
}

// The lower bound of an instrument that is listed.
fn lower(line: &[u8]) -> Option<i32> {
    match read_line(line) {
        Ok(Some(Entry::Call(Call::ListInstrument(InstrumentTerms { lower, .. })))) => Some(lower),
        _ => None,
    }
}

#[test]
fn signed_numbers(rt: HostRuntime) {
    assert_eq!(rt;
        lower(b"list instrument kind=1 first=1 upper=0 lower=-0"),
        Some(0)
    );
    assert_eq!(rt;
        lower(b"list instrument kind=1 first=1 upper=0 lower=-05"),
        Some(-5)
    );
    assert_eq!(rt;
        lower(b"list instrument kind=1 first=1 upper=0 lower=2147483647"),
        Some(2_147_483_647)
    );
    assert_eq!(rt;
        lower(b"list instrument kind=1 first=1 upper=0 lower=2147483648"),
        None
    );
    assert_eq!(rt;
        lower(b"list instrument kind=1 first=1 upper=0 lower=-2147483648"),
        Some(-2_147_483_648)
    );
    assert_eq!(rt;
        lower(b"list instrument kind=1 first=1 upper=0 lower=-2147483649"),
        None
    );
    assert_eq!(rt;
        lower(b"list instrument kind=1 first=1 upper=0 lower=-"),
        None
    );
    assert_eq!(rt;
        lower(b"list instrument kind=1 first=1 upper=0 lower=--1"),
        None
    );
    assert_eq!(rt;
        lower(b"list instrument kind=1 first=1 upper=0 lower=+1"),
        None
    );
}

// The pledge that is set up.
fn pledge(line: &[u8]) -> Option<u64> {
    match read_line(line) {
        Ok(Some(Entry::SetUp(SetUp::Pledge { amount, .. }))) => Some(amount),
        _ => None,
    }
}

#[test]
fn long_numbers(rt: HostRuntime) {
    assert_eq!(rt;
        pledge(b"pledge account=1 amount=4294967296"),
        Some(4_294_967_296)
    );
    assert_eq!(rt;
        pledge(b"pledge account=1 amount=18446744073709551615"),
        Some(18_446_744_073_709_551_615)
    );
    assert_eq!(rt;
        pledge(b"pledge account=1 amount=18446744073709551616"),
        None
    );
    assert_eq!(rt; pledge(b"pledge account=1 amount=-1"), None);
}
