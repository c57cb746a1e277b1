// What an instrument's admission may rest on of a contract.
#[derive(Clone, Copy, Debug, PartialEq, Eq)]
pub struct Listing {
    pub underlying: u32,
    pub last_day: u32,
}
