use records::terms::{AccountTerms, ContractTerms, InstrumentTerms};

// A call of the market.
#[derive(Clone, Copy, Debug, PartialEq, Eq)]
pub enum Call {
    ListContract(ContractTerms),
    ListInstrument(InstrumentTerms),
    AdmitAccount(AccountTerms),
    Resume,
    Suspend,
}
