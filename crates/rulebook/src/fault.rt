ghost use Rattle.std.specs.Prelude.{Some};
ghost use Rattle.rulebook.specs.Faults.{fault_text};

use std::error::Error;
use std::fmt;

// The first number, of those that a centre was to be made of, that is out of range: a contract's limit, an account's
// pledge or a contract's margin, by the number of the account or contract.
#[derive(Clone, Copy, Debug, PartialEq, Eq)]
pub enum OutOfRange {
    Limit(usize),
    Pledge(usize),
    Margin(usize),
}

impl fmt::Display for OutOfRange {
    ghost output = { λ e. Some (fault_text e) };

    fn fmt<W: fmt::Write>(&self, f: &mut fmt::Formatter<W>) -> fmt::Result {
        match self {
            OutOfRange::Limit(contract) => {
                write!(f, "the limit of contract {contract} is out of range")
            }
            OutOfRange::Pledge(account) => {
                write!(f, "the pledge of account {account} is out of range")
            }
            OutOfRange::Margin(contract) => {
                write!(f, "the margin of contract {contract} is out of range")
            }
        }
    }
}

impl Error for OutOfRange {}
