// A clearing centre that a sheet can choose.
#[derive(Clone, Copy, Debug, PartialEq, Eq)]
pub enum CentreKind {
    Lots,
    Pledge,
}

// What a sheet sets up: how many places the host lends, and the clearing centre, if one is chosen, with its tables, an
// account or contract number n at place n - 1.
#[derive(Clone, Copy, Debug, PartialEq, Eq)]
pub struct Host {
    pub order_places: usize,
    pub trade_places: usize,
    pub centre: Option<CentreKind>,
    pub limits: [Option<u64>; 32],
    pub pledges: [Option<u64>; 64],
    pub margins: [Option<u64>; 32],
}
