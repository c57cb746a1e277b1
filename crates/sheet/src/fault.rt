use crate::key::Key;

// Why a line is no entry, or an entry that cannot be taken. `T` is a piece of the line.
#[derive(Clone, Copy, Debug, PartialEq, Eq)]
pub enum Fault<T> {
    // no entry has this name; the line's first word
    UnknownName(T),
    // the entry takes no such key; what stands before the word's equals sign, or the whole word where it has none
    UnknownKey(T),
    Repeated(Key),
    Missing(Key),
    NotANumber(Key),
    // a set-up entry behind the first call or question
    TooLate,
    // set-up entries of both clearing centres in one sheet
    TwoCentres,
    // a set-up value outside its range
    OutOfRange(Key),
}
