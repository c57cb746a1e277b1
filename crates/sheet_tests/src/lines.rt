use sheet::call::Call;
use sheet::entry::Entry;
use sheet::lines::next_line;
use sheet::reading::read_line;

fn line(text: &[u8]) -> &[u8] {
    next_line(text).0
}

fn rest(text: &[u8]) -> &[u8] {
    next_line(text).1
}

#[test]
fn a_line_ends_at_a_line_feed(rt: HostRuntime) {
    assert!(rt; line(b"one\ntwo\n") == b"one".as_slice());
    assert!(rt; rest(b"one\ntwo\n") == b"two\n".as_slice());
    assert!(rt; line(b"two") == b"two".as_slice());
    assert!(rt; rest(b"two").is_empty());
    assert!(rt; rest(b"two\n").is_empty());
    assert!(rt; line(b"\n\n").is_empty());
    assert!(rt; rest(b"\n\n") == b"\n".as_slice());
    assert!(rt; line(b"").is_empty());
}

#[test]
fn one_carriage_return_is_dropped(rt: HostRuntime) {
    assert!(rt; line(b"one\r\ntwo") == b"one".as_slice());
    assert!(rt; line(b"one\r") == b"one".as_slice());
    assert!(rt; line(b"one\r\r\n") == b"one\r".as_slice());
    assert!(rt; line(b"o\rne\n") == b"o\rne".as_slice());
    assert!(rt; line(b"\r\n").is_empty());
    assert!(rt; rest(b"\r\ntwo") == b"two".as_slice());
    assert!(rt; line(b"\0\xff\r\n") == b"\0\xff".as_slice());
}

fn says_nothing(text: &[u8]) -> bool {
    matches!(read_line(text), Ok(None))
}

fn resumes(text: &[u8]) -> bool {
    matches!(read_line(text), Ok(Some(Entry::Call(Call::Resume))))
}

#[test]
fn blanks_and_remarks_say_nothing(rt: HostRuntime) {
    assert!(rt; says_nothing(b""));
    assert!(rt; says_nothing(b" \t  "));
    assert!(rt; says_nothing(b"# resume"));
    assert!(rt; says_nothing(b" \t#resume"));
    assert!(rt; !says_nothing(b"resume"));
}

#[test]
fn blanks_stand_around_words(rt: HostRuntime) {
    assert!(rt; resumes(b"resume"));
    assert!(rt; resumes(b"\t resume \t"));
    assert!(rt; !resumes(b"resume\r"));
    assert!(rt; !resumes(b"resume\0"));
    assert!(rt; !resumes(b"resume #"));
    assert!(rt; !resumes(b"Resume"));
    assert!(rt; !resumes(b"suspend"));
}
