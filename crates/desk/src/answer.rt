use market::refusal::Refusal;
use printing::reply::Reply;
use sheet::name::Name;

// A call or a question that was carried out: its name, and its reply or why it was turned away.
#[derive(Clone, Copy, Debug, PartialEq, Eq)]
pub struct Answer {
    pub name: Name,
    pub reply: Result<Reply, Refusal>,
}
