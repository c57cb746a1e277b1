// The names of the entries of a sheet.
#[derive(Clone, Copy, Debug, PartialEq, Eq)]
pub enum Name {
    Memory,
    Lots,
    Pledge,
    Margin,
    ListContract,
    ListInstrument,
    AdmitAccount,
    Resume,
    Suspend,
    ShowContract,
    ShowInstrument,
    ShowAccount,
    ShowPosition,
    ShowMoney,
    ShowOrder,
    ShowTrade,
    ShowMarket,
}
