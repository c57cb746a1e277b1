ghost use Rattle.std.specs.Prelude.{◌≡◌, false, is_ok};
ghost use Rattle.market.specs.Views.{view, KeepsUnused};
ghost use Rattle.desk.specs.Answers.{call_reply, call_after, question_reply};

use market::market::Market;
use market::refusal::Refusal;
use printing::reply::Reply;
use records::rows::OrderRow;
use rulebook::centre::ClearingCentre;
use rulebook::joined::EXCHANGE_RULES;
use sheet::call::Call;
use sheet::question::Question;

// Carries a call out on the market, under the exchange's rules and this centre, and gives the reply.
pub fn carry_out<C: ClearingCentre>(
    market: &mut Market,
    centre: &C,
    call: Call,
) -> Result<Reply, Refusal>
    ensures reply { result ≡ call_reply call (view market.old) }
    ensures state { view market.new ≡ call_after call (view market.old) }
    ensures orders { KeepsUnused market.old.orders market.new.orders }
    ensures trades { KeepsUnused market.old.trades market.new.trades }
    ensures refused { is_ok result ≡ false → market.new ≡ market.old }
{
    match call {
        Call::ListContract(terms) => market
            .list_contract(&EXCHANGE_RULES, centre, terms)
            .map(Reply::NewContract),
        Call::ListInstrument(terms) => market
            .list_instrument(&EXCHANGE_RULES, centre, terms)
            .map(Reply::NewInstrument),
        Call::AdmitAccount(terms) => market
            .admit_account(&EXCHANGE_RULES, centre, terms)
            .map(Reply::NewAccount),
        Call::Resume => market.resume(&EXCHANGE_RULES, centre).map(|()| Reply::Done),
        Call::Suspend => market
            .suspend(&EXCHANGE_RULES, centre)
            .map(|()| Reply::Done),
    }
}

// Asks the market a question and gives the reply.
pub fn ask(market: &Market, question: Question) -> Result<Reply, Refusal>
    ensures { result ≡ question_reply question (view market.now) }
{
    match question {
        Question::Contract(number) => market
            .contract(number)
            .map(|contract| Reply::Contract(contract.terms)),
        Question::Instrument(number) => market
            .instrument(number)
            .map(|instrument| Reply::Instrument(instrument.terms)),
        Question::Account(number) => market
            .account(number)
            .map(|account| Reply::Account(account.holder.terms)),
        Question::Position { account, contract } => market
            .position(account, contract)
            .map(Reply::Position),
        Question::Money(account) => market.money(account).map(Reply::Money),
        Question::Order(number) => market
            .order(number)
            .map(|order| Reply::Order(OrderRow::from(order))),
        Question::Trade(number) => market.trade(number).map(Reply::Trade),
        Question::Market => Ok(Reply::Market(market.overview())),
    }
}
