ghost use Rattle.std.specs.Prelude.{◌≡◌};
ghost use Rattle.sheet.specs.Naming.{set_up_name, call_name, question_name, entry_name};

use crate::call::Call;
use crate::entry::Entry;
use crate::name::Name;
use crate::question::Question;
use crate::set_up::SetUp;

impl SetUp {
    // The entry's name.
    pub fn name(self) -> Name
        ensures { result ≡ set_up_name self }
    {
        match self {
            SetUp::Memory { .. } => Name::Memory,
            SetUp::Lots { .. } => Name::Lots,
            SetUp::Pledge { .. } => Name::Pledge,
            SetUp::Margin { .. } => Name::Margin,
        }
    }
}

impl Call {
    // The entry's name.
    pub fn name(self) -> Name
        ensures { result ≡ call_name self }
    {
        match self {
            Call::ListContract(_) => Name::ListContract,
            Call::ListInstrument(_) => Name::ListInstrument,
            Call::AdmitAccount(_) => Name::AdmitAccount,
            Call::Resume => Name::Resume,
            Call::Suspend => Name::Suspend,
        }
    }
}

impl Question {
    // The entry's name.
    pub fn name(self) -> Name
        ensures { result ≡ question_name self }
    {
        match self {
            Question::Contract(_) => Name::ShowContract,
            Question::Instrument(_) => Name::ShowInstrument,
            Question::Account(_) => Name::ShowAccount,
            Question::Position { .. } => Name::ShowPosition,
            Question::Money(_) => Name::ShowMoney,
            Question::Order(_) => Name::ShowOrder,
            Question::Trade(_) => Name::ShowTrade,
            Question::Market => Name::ShowMarket,
        }
    }
}

impl Entry {
    // The entry's name.
    pub fn name(self) -> Name
        ensures { result ≡ entry_name self }
    {
        match self {
            Entry::SetUp(set_up) => set_up.name(),
            Entry::Call(call) => call.name(),
            Entry::Question(question) => question.name(),
        }
    }
}
