// The kinds of number that a field takes: unsigned of 32 bits, signed of 32 bits, unsigned of 64 bits.
#[derive(Clone, Copy, Debug, PartialEq, Eq)]
pub enum NumberKind {
    Unsigned,
    Signed,
    Long,
}
