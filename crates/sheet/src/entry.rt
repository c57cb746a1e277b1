use crate::call::Call;
use crate::question::Question;
use crate::set_up::SetUp;

// What a line of a sheet says.
#[derive(Clone, Copy, Debug, PartialEq, Eq)]
pub enum Entry {
    SetUp(SetUp),
    Call(Call),
    Question(Question),
}
