ghost use Rattle.std.specs.Prelude.{◌≡◌};
ghost use Rattle.std.specs.Option.{option_map};
ghost use Rattle.sheet.specs.Names.{title, keys_of, all_names, after, begun, name_among};
ghost use Rattle.sheet.specs.Words.{words};

use crate::key::Key;
use crate::name::Name;
use crate::words::{Words, from_first_word};

// Every name.
const ALL_NAMES: [Name; 17] = [
    Name::Memory,
    Name::Lots,
    Name::Pledge,
    Name::Margin,
    Name::ListContract,
    Name::ListInstrument,
    Name::AdmitAccount,
    Name::Resume,
    Name::Suspend,
    Name::ShowContract,
    Name::ShowInstrument,
    Name::ShowAccount,
    Name::ShowPosition,
    Name::ShowMoney,
    Name::ShowOrder,
    Name::ShowTrade,
    Name::ShowMarket,
];

impl Name {
    // The word or words of the name. They are compared with bytes of a line, so they are a text and no `Display`.
    pub fn title(self) -> &'static str
        ensures { result.now ≡ title self }
    {
        match self {
            Name::Memory => "memory",
            Name::Lots => "lots",
            Name::Pledge => "pledge",
            Name::Margin => "margin",
            Name::ListContract => "list contract",
            Name::ListInstrument => "list instrument",
            Name::AdmitAccount => "admit account",
            Name::Resume => "resume",
            Name::Suspend => "suspend",
            Name::ShowContract => "show contract",
            Name::ShowInstrument => "show instrument",
            Name::ShowAccount => "show account",
            Name::ShowPosition => "show position",
            Name::ShowMoney => "show money",
            Name::ShowOrder => "show order",
            Name::ShowTrade => "show trade",
            Name::ShowMarket => "show market",
        }
    }

    // The keys that the entry takes, in the order in which a missing one is told.
    pub(crate) fn keys(self) -> &'static [Key]
        ensures { result.now ≡ keys_of self }
    {
        match self {
            Name::Memory => &[Key::Orders, Key::Trades],
            Name::Lots => &[Key::Contract, Key::Limit],
            Name::Pledge => &[Key::Account, Key::Amount],
            Name::Margin => &[Key::Contract, Key::Amount],
            Name::ListContract => &[
                Key::Underlying,
                Key::LastDay,
                Key::Lower,
                Key::Settlement,
                Key::Upper,
                Key::W,
                Key::R,
            ],
            Name::ListInstrument => &[Key::Kind, Key::First, Key::Second, Key::Lower, Key::Upper],
            Name::AdmitAccount => &[Key::Participant, Key::Taxpayer],
            Name::Resume => &[],
            Name::Suspend => &[],
            Name::ShowContract => &[Key::Number],
            Name::ShowInstrument => &[Key::Number],
            Name::ShowAccount => &[Key::Number],
            Name::ShowPosition => &[Key::Account, Key::Contract],
            Name::ShowMoney => &[Key::Account],
            Name::ShowOrder => &[Key::Number],
            Name::ShowTrade => &[Key::Number],
            Name::ShowMarket => &[],
        }
    }
}

// What stands in a line behind the words of a title, if the line begins with these.
fn after_title<'l>(title: &[u8], line: &'l [u8]) -> Option<&'l [u8]>
    ensures { option_map (λ rest. words rest.now) result ≡ after (words title.now) (words line.now) }
{
    let mut left = Words(line);
    for part in Words(title) {
        if part != left.next()? {
            return None;
        }
    }
    Some(left.0)
}

// The name, and what stands behind it, if the line begins with it.
fn name_before<'l>(name: Name, line: &'l [u8]) -> Option<(Name, &'l [u8])>
    ensures { option_map (λ p. (p.0, words p.1.now)) result ≡ begun (words line.now) name }
{
    after_title(name.title().as_bytes(), line).map(|rest| (name, rest))
}

// The first of these names with which the line begins, and what stands behind it.
fn name_among<'l>(names: &[Name], line: &'l [u8]) -> Option<(Name, &'l [u8])>
    ensures { option_map (λ p. (p.0, words p.1.now)) result ≡ name_among names.now (words line.now) }
{
    names.iter().find_map(|name| name_before(*name, line))
}

// The name with which the line begins, if it is one of an entry, and what stands behind it.
pub fn name_of(line: &[u8]) -> Option<(Name, &[u8])>
    ensures { option_map (λ p. (p.0, words p.1.now)) result ≡ name_among all_names (words line.now) }
{
    name_among(&ALL_NAMES, from_first_word(line))
}
