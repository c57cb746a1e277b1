#![tactic(auto)]

ghost use Rattle.std.specs.Prelude.{◌≡◌, true};
ghost use Rattle.records.specs.Ranges.{price_in_range};
ghost use Rattle.sample.specs.Struck.{leg_trade as trade_of};

use anyhow::{Context, anyhow};
use books::ledger::Ledger;
use books::value::difference_in;
use records::account::Account;
use records::codes::Direction;
use records::contract::Contract;
use records::instrument::Instrument;
use records::numbering::record_of;
use records::register::{Register, TradeRegister};
use records::rows::Trade;
use records::terms::{AccountTerms, ContractTerms, InstrumentTerms};
use rulebook::asking::trade_price;
use rulebook::joined::EXCHANGE_RULES;
use rulebook::legs::{Leg, LegPlace, Legs};
use rulebook::rule::InstrumentRule;

// Two orders that met: who bought and who sold the instrument, how much, and at which price.
#[derive(Clone, Copy, Debug, PartialEq, Eq)]
struct Struck {
    buying_order: u32,
    selling_order: u32,
    quantity: u32,
    price: i32,
}

// The trade of one leg: the order that takes the leg's contract is the buying one.
fn leg_trade(struck: &Struck, leg: &Leg, price: i32) -> Trade
    ensures { result ≡ trade_of struck.now leg.now price }
{
    match leg.in_purchase {
        Direction::Buy => Trade {
            contract: leg.contract,
            buying_order: struck.buying_order,
            selling_order: struck.selling_order,
            quantity: struck.quantity,
            price,
        },
        Direction::Sell => Trade {
            contract: leg.contract,
            buying_order: struck.selling_order,
            selling_order: struck.buying_order,
            quantity: struck.quantity,
            price,
        },
    }
}

// One trade for each leg, in the rule's order, entered in the register.
fn strike<R: InstrumentRule>(
    rt: &HostRuntime,
    rule: &R,
    instrument: &Instrument,
    contracts: &[Contract],
    struck: &Struck,
    trades: &mut TradeRegister,
) -> anyhow::Result<()>
    requires { price_in_range struck.now.price ≡ true }
{
    match rule.legs(instrument) {
        Legs::NoLeg => Err(anyhow!("the instrument has no leg")),
        Legs::One(a) => {
            let first = trade_price(rule, instrument, LegPlace::First, struck.price, contracts);
            enter(rt, trades, leg_trade(struck, &a, first))
        }
        Legs::Two(a, b) => {
            let first = trade_price(rule, instrument, LegPlace::First, struck.price, contracts);
            let second = trade_price(rule, instrument, LegPlace::Second, struck.price, contracts);
            enter(rt, trades, leg_trade(struck, &a, first))?;
            enter(rt, trades, leg_trade(struck, &b, second))
        }
    }
}

fn show(rt: &HostRuntime, what: &str, number: usize, t: &Trade) -> anyhow::Result<()> {
    let contract = t.contract;
    let quantity = t.quantity;
    let price = t.price;
    let buyer = t.buying_order;
    let seller = t.selling_order;
    println!(rt;
        "{what} {number}: contract {contract} quantity {quantity} price {price} buyer order {buyer} seller order {seller}"
    )?;
    Ok(())
}

// Enters a trade and says under which number.
fn enter(rt: &HostRuntime, trades: &mut TradeRegister, trade: Trade) -> anyhow::Result<()> {
    let number = trades.enter(trade).context("the trades register is full")?;
    show(rt, "entered trade", number, &trade)
}

fn read_back(rt: &HostRuntime, trades: &TradeRegister) -> anyhow::Result<()> {
    let count = trades.len();
    println!(rt; "the trades register holds {count} trades:")?;
    for (at, trade) in trades.records().iter().enumerate() {
        show(rt, "trade", at + 1, trade)?;
    }
    Ok(())
}

fn contract(last_day: u32, lower: i32, settlement: i32, upper: i32) -> Option<Contract> {
    Contract::new(ContractTerms {
        underlying: 7,
        last_day,
        lower,
        settlement,
        upper,
        w: 3,
        r: 2,
    })
}

// Books a trade between the accounts that own its two orders; here order n is account n's.
fn book(ledger: &mut Ledger, contracts: &[Contract], trade: &Trade) -> anyhow::Result<()> {
    let contract = record_of(contracts, trade.contract as usize).context(
        "the contract is not listed",
    )?;
    let difference = difference_in(&contract, trade.price);
    ledger
        .try_book(
            trade,
            trade.buying_order as usize,
            trade.selling_order as usize,
            difference,
        )
        .map_err(|_| anyhow!("the trade cannot be booked"))
}

fn book_all(
    ledger: &mut Ledger,
    contracts: &[Contract],
    trades: &TradeRegister,
) -> anyhow::Result<()> {
    for trade in trades.records() {
        book(ledger, contracts, trade)?;
    }
    Ok(())
}

fn show_accounts(rt: &HostRuntime, ledger: &Ledger) -> anyhow::Result<()> {
    for (at, account) in ledger.accounts().iter().enumerate() {
        let number = at + 1;
        let nearby = account.lots_in(1);
        let distant = account.lots_in(2);
        let money = account.money;
        println!(rt; "account {number}: nearby {nearby} distant {distant} money {money}")?;
    }
    Ok(())
}

fn admit(ledger: &mut Ledger, participant: u32, taxpayer: u32) -> anyhow::Result<()> {
    let account = Account::new(AccountTerms {
        participant,
        taxpayer,
    })
    .context("the account is out of range")?;
    ledger
        .admit(account)
        .context("there are too many accounts")?;
    Ok(())
}

// Says what is struck, and who takes which month.
fn announce(rt: &HostRuntime, struck: &Struck, contracts: &[Contract; 2]) -> anyhow::Result<()> {
    let buyer = struck.buying_order;
    let seller = struck.selling_order;
    let quantity = struck.quantity;
    let price = struck.price;
    let nearby = contracts[0].terms.settlement;
    let distant = contracts[1].terms.settlement;
    println!(rt;
        "order {buyer} buys and order {seller} sells {quantity} spreads of contracts 1 and 2 at {price}; contract 1 is settled at {nearby}, contract 2 at {distant}"
    )?;
    println!(rt; "whoever buys the spread sells the nearby contract and buys the distant one")?;
    Ok(())
}

// The nearby and the distant month.
fn months() -> anyhow::Result<[Contract; 2]> {
    let nearby = contract(90, 900, 1_000, 1_100).context("the nearby contract is out of range")?;
    let distant = contract(180, 950, 1_040, 1_200).context("the distant contract is out of range")?;
    Ok([nearby, distant])
}

// The spread of the two months, admitted by the exchange's rules.
fn spread_of(contracts: &[Contract; 2]) -> anyhow::Result<Instrument> {
    let spread = Instrument::new(InstrumentTerms {
        kind: 2,
        first: 1,
        second: Some(2),
        lower: -50,
        upper: 100,
    })
    .context("the instrument is out of range")?;
    if !EXCHANGE_RULES.admits(&spread, contracts) {
        return Err(anyhow!("the spread is not admitted"));
    }
    Ok(spread)
}

// Books the trades in two fresh accounts and shows them.
fn settle(
    rt: &HostRuntime,
    contracts: &[Contract; 2],
    trades: &TradeRegister,
) -> anyhow::Result<()> {
    let mut ledger = Ledger::new();
    admit(&mut ledger, 11, 501)?;
    admit(&mut ledger, 12, 502)?;
    book_all(&mut ledger, contracts, trades)?;
    println!(rt; "order 1 is account 1's and order 2 account 2's; with both trades booked:")?;
    show_accounts(rt, &ledger)
}

fn run(rt: &HostRuntime) -> anyhow::Result<()> {
    let contracts = months()?;
    let spread = spread_of(&contracts)?;
    let struck = Struck {
        buying_order: 1,
        selling_order: 2,
        quantity: 15,
        price: 12,
    };
    announce(rt, &struck, &contracts)?;
    let mut places = [Trade::default(); 2];
    let mut trades = Register::begin(&mut places);
    strike(
        rt,
        &EXCHANGE_RULES,
        &spread,
        &contracts,
        &struck,
        &mut trades,
    )?;
    read_back(rt, &trades)?;
    settle(rt, &contracts, &trades)
}

fn main(rt: HostRuntime) -> anyhow::Result<()> {
    run(&rt)
}
