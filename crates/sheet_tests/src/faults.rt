use sheet::fault::Fault;
use sheet::key::Key;
use sheet::reading::read_line;

// The line's first word, where the name is unknown.
fn unknown_name(line: &[u8]) -> Option<&[u8]> {
    match read_line(line) {
        Err(Fault::UnknownName(word)) => Some(word),
        _ => None,
    }
}

#[test]
fn unknown_names(rt: HostRuntime) {
    assert!(rt; unknown_name(b"list") == Some(b"list"));
    assert!(rt; unknown_name(b"list foo number=1") == Some(b"list"));
    assert!(rt; unknown_name(b"list contracts") == Some(b"list"));
    assert!(rt; unknown_name(b"listcontract w=1") == Some(b"listcontract"));
    assert!(rt; unknown_name(b" submit account=1 account=1") == Some(b"submit"));
    assert!(rt; unknown_name(b"number=1") == Some(b"number=1"));
    assert!(rt; unknown_name(b"\0\xff x") == Some(b"\0\xff"));
    assert!(rt; unknown_name(b"resume").is_none());
}

// The key, where it is unknown.
fn unknown_key(line: &[u8]) -> Option<&[u8]> {
    match read_line(line) {
        Err(Fault::UnknownKey(key)) => Some(key),
        _ => None,
    }
}

#[test]
fn unknown_keys(rt: HostRuntime) {
    assert!(rt; unknown_key(b"lots contract=1 limits=2") == Some(b"limits"));
    assert!(rt; unknown_key(b"lots contract=1 limit") == Some(b"limit"));
    assert!(rt; unknown_key(b"lots contract=1 number=2") == Some(b"number"));
    assert!(rt; unknown_key(b"lots contract=1 =2") == Some(b""));
    assert!(rt; unknown_key(b"lots Contract=x contract=x") == Some(b"Contract"));
    assert!(rt; unknown_key(b"lots \0\xff=2=3") == Some(b"\0\xff"));
    assert!(rt; unknown_key(b"resume now") == Some(b"now"));
}

// The name of the key that is at fault, behind a word for the fault.
fn told(line: &[u8]) -> (&'static str, &'static str) {
    match read_line(line) {
        Err(Fault::Repeated(key)) => ("repeated", key.name()),
        Err(Fault::Missing(key)) => ("missing", key.name()),
        Err(Fault::NotANumber(key)) => ("no number", key.name()),
        _ => ("", ""),
    }
}

#[test]
fn the_first_fault_is_told(rt: HostRuntime) {
    assert_eq!(rt;
        told(b"lots contract=1 contract=1"),
        ("repeated", "contract")
    );
    assert_eq!(rt;
        told(b"lots contract=1 contract=x"),
        ("repeated", "contract")
    );
    assert_eq!(rt;
        told(b"lots contract=x contract=1"),
        ("no number", "contract")
    );
    assert_eq!(rt; told(b"lots limit= wrong"), ("no number", "limit"));
    assert_eq!(rt; told(b"lots limit=1"), ("missing", "contract"));
    assert_eq!(rt; told(b"lots"), ("missing", "contract"));
    assert_eq!(rt;
        told(b"list contract r=1 underlying=1"),
        ("missing", "last-day")
    );
    assert_eq!(rt; told(b"list instrument"), ("missing", "kind"));
    assert_eq!(rt;
        told(b"list instrument kind=1 first=1"),
        ("missing", "lower")
    );
    assert_eq!(rt; told(b"lots limit=1 contract=2"), ("", ""));
}

// The name of the key that is written so.
fn known(text: &[u8]) -> &'static str {
    Key::from_name(text).map_or("", Key::name)
}

#[test]
fn keys_are_known_by_name(rt: HostRuntime) {
    assert_eq!(rt; known(b"last-day"), "last-day");
    assert_eq!(rt; known(b"r"), "r");
    assert_eq!(rt; known(b"expiry"), "expiry");
    assert_eq!(rt; known(b"last_day"), "");
    assert_eq!(rt; known(b""), "");
}
