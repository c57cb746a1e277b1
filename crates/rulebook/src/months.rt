// The two contracts of a calendar spread.
#[derive(Clone, Copy, Debug, PartialEq, Eq)]
pub struct Months {
    pub nearby: u32,
    pub distant: u32,
}
