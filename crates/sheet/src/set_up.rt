// What a sheet settles before its first call or question.
#[derive(Clone, Copy, Debug, PartialEq, Eq)]
pub enum SetUp {
    // how many places the host lends for orders and for trades
    Memory { orders: u64, trades: u64 },
    // the lots centre's number for a contract
    Lots { contract: u32, limit: u32 },
    // the pledge of an account, for the pledge centre
    Pledge { account: u32, amount: u64 },
    // the margin of a lot of a contract, for the pledge centre
    Margin { contract: u32, amount: u64 },
}
