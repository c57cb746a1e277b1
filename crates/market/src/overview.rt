use records::codes::Phase;

// What a market tells of itself: its phase, its date, how many orders it can register in all, and how many records of
// each kind there are.
#[derive(Clone, Copy, Debug, PartialEq, Eq)]
pub struct Overview {
    pub phase: Phase,
    pub date: u32,
    pub capacity: usize,
    pub contracts: usize,
    pub instruments: usize,
    pub accounts: usize,
    pub orders: usize,
    pub trades: usize,
}
