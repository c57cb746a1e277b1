ghost use Rattle.std.specs.Prelude.{◌≡◌};
ghost use Rattle.sheet.specs.Entries.{memory_keyed, lots_keyed, pledge_keyed, margin_keyed, contract_keyed, instrument_keyed, account_keyed, position_keyed, entry_of};
ghost use Rattle.sheet.specs.Naming.{entry_name};

use crate::call::Call;
use crate::entry::Entry;
use crate::key::Key;
use crate::name::Name;
use crate::question::Question;
use crate::set_up::SetUp;
use crate::values::Values;
use records::terms::{AccountTerms, ContractTerms, InstrumentTerms};

fn memory_keyed(values: &Values) -> SetUp
    ensures { result ≡ memory_keyed values.now }
{
    SetUp::Memory {
        orders: values.number(Key::Orders),
        trades: values.number(Key::Trades),
    }
}

fn lots_keyed(values: &Values) -> SetUp
    ensures { result ≡ lots_keyed values.now }
{
    SetUp::Lots {
        contract: values.number(Key::Contract),
        limit: values.number(Key::Limit),
    }
}

fn pledge_keyed(values: &Values) -> SetUp
    ensures { result ≡ pledge_keyed values.now }
{
    SetUp::Pledge {
        account: values.number(Key::Account),
        amount: values.number(Key::Amount),
    }
}

fn margin_keyed(values: &Values) -> SetUp
    ensures { result ≡ margin_keyed values.now }
{
    SetUp::Margin {
        contract: values.number(Key::Contract),
        amount: values.number(Key::Amount),
    }
}

fn contract_keyed(values: &Values) -> ContractTerms
    ensures { result ≡ contract_keyed values.now }
{
    ContractTerms {
        underlying: values.number(Key::Underlying),
        last_day: values.number(Key::LastDay),
        lower: values.number(Key::Lower),
        settlement: values.number(Key::Settlement),
        upper: values.number(Key::Upper),
        w: values.number(Key::W),
        r: values.number(Key::R),
    }
}

fn instrument_keyed(values: &Values) -> InstrumentTerms
    ensures { result ≡ instrument_keyed values.now }
{
    InstrumentTerms {
        kind: values.number(Key::Kind),
        first: values.number(Key::First),
        second: values.number_if_any(Key::Second),
        lower: values.number(Key::Lower),
        upper: values.number(Key::Upper),
    }
}

fn account_keyed(values: &Values) -> AccountTerms
    ensures { result ≡ account_keyed values.now }
{
    AccountTerms {
        participant: values.number(Key::Participant),
        taxpayer: values.number(Key::Taxpayer),
    }
}

fn position_keyed(values: &Values) -> Question
    ensures { result ≡ position_keyed values.now }
{
    Question::Position {
        account: values.number(Key::Account),
        contract: values.number(Key::Contract),
    }
}

// The entry of a name, with the values of its keys.
pub fn entry_of(name: Name, values: &Values) -> Entry
    ensures value { result ≡ entry_of name values.now }
    ensures named { entry_name result ≡ name }
{
    match name {
        Name::Memory => Entry::SetUp(memory_keyed(values)),
        Name::Lots => Entry::SetUp(lots_keyed(values)),
        Name::Pledge => Entry::SetUp(pledge_keyed(values)),
        Name::Margin => Entry::SetUp(margin_keyed(values)),
        Name::ListContract => Entry::Call(Call::ListContract(contract_keyed(values))),
        Name::ListInstrument => Entry::Call(Call::ListInstrument(instrument_keyed(values))),
        Name::AdmitAccount => Entry::Call(Call::AdmitAccount(account_keyed(values))),
        Name::Resume => Entry::Call(Call::Resume),
        Name::Suspend => Entry::Call(Call::Suspend),
        Name::ShowContract => Entry::Question(Question::Contract(values.number(Key::Number))),
        Name::ShowInstrument => Entry::Question(Question::Instrument(values.number(Key::Number))),
        Name::ShowAccount => Entry::Question(Question::Account(values.number(Key::Number))),
        Name::ShowPosition => Entry::Question(position_keyed(values)),
        Name::ShowMoney => Entry::Question(Question::Money(values.number(Key::Account))),
        Name::ShowOrder => Entry::Question(Question::Order(values.number(Key::Number))),
        Name::ShowTrade => Entry::Question(Question::Trade(values.number(Key::Number))),
        Name::ShowMarket => Entry::Question(Question::Market),
    }
}
