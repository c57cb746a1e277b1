ghost use Rattle.std.specs.Prelude.{◌≡◌, ◌+◌, ◌^◌, ◌<◌, length, IfOk, OnOk};
ghost use Rattle.sheet.specs.Words.{first_line, after_line};
ghost use Rattle.desk.specs.Days.{shown, followed_by, trading, begun_by, lines, sheet_printed};

use crate::host::{CentreKind, Host};
use crate::lines::{settle_line, take_line};
use crate::printout::Printout;
use anyhow::anyhow;
use market::market::Market;
use records::rows::{OrderRow, Trade};
use rulebook::centre::ClearingCentre;
use rulebook::lots::LotsCentre;
use rulebook::pledge::PledgeCentre;
use sheet::lines::next_line;
use std::alloc::AllocError;
use std::mem;

// What is left of a sheet, and the number of its first line.
#[derive(Clone, Copy)]
struct Unread<'s> {
    number: usize,
    text: &'s [u8],
    // there are no more lines than bytes, so each of them has a number
    ghost countable: { number + length text.now < 2 ^ 64 },
}

impl<'s> Unread<'s> {
    // A whole sheet.
    fn whole(text: &'s [u8]) -> Unread<'s>
        ensures number { result.number ≡ 1 }
        ensures text { result.text.now ≡ text.now }
    {
        Unread { number: 1, text }
    }

    // The first line and what is left behind it.
    fn next_line(&self) -> (&'s [u8], Unread<'s>)
        requires { 0 < length self.now.text.now }
        ensures line { result.0.now ≡ first_line self.now.text.now }
        ensures number { result.1.number ≡ self.now.number + 1 }
        ensures rest { result.1.text.now ≡ after_line self.now.text.now }
        ensures shorter { length result.1.text.now < length self.now.text.now }
    {
        let (line, text) = next_line(self.text);
        let number = self.number + 1;
        (line, Unread { number, text })
    }
}

// What a sheet sets up, and what is left of it at its first call or question.
#[derive(Clone, Copy)]
struct Ready<'s> {
    host: Host,
    unread: Unread<'s>,
}

// Carries out what is left of a sheet on a market that begins over the places that the host lends.
fn trade<C: ClearingCentre>(
    centre: &C,
    ready: &Ready,
    printed: &mut Printout,
) -> Result<(), AllocError>
    ensures { OnOk result (shown printed.new ≡ followed_by (shown printed.old) (trading (begun_by ready.now.host) ready.now.unread.number (lines ready.now.unread.text.now))) }
{
    let heap = *printed.text.allocator();
    let mut orders = vec![in heap; OrderRow::default(); ready.host.order_places]?;
    let mut trades = vec![in heap; Trade::default(); ready.host.trade_places]?;
    let mut market = Market::begin(orders.as_mut_slice(), trades.as_mut_slice());
    let mut unread = ready.unread;
    while !unread.text.is_empty() {
        let (line, behind) = unread.next_line();
        printed.add_taken(unread.number, take_line(&mut market, centre, line))?;
        unread = behind;
    }
    Ok(())
}

// Carries out the lines before the first call or question.
fn set_up<'s>(text: &'s [u8], printed: &mut Printout) -> Result<Ready<'s>, AllocError>
    ensures { IfOk result (λ r. followed_by (shown printed.new) (trading (begun_by r.host) r.unread.number (lines r.unread.text.now)) ≡ followed_by (shown printed.old) (sheet_printed text.now)) }
{
    let mut host = Host::new();
    let mut unread = Unread::whole(text);
    while !unread.text.is_empty() {
        let (line, behind) = unread.next_line();
        match settle_line(host, line) {
            Ok(Some(next)) => host = next,
            Ok(None) => break,
            Err(fault) => printed.add_fault(unread.number, fault)?,
        }
        unread = behind;
    }
    Ok(Ready { host, unread })
}

// Carries out what is left of a sheet on a market under the centre that was chosen.
fn trade_on(ready: &Ready, printed: &mut Printout) -> anyhow::Result<()>
    ensures { OnOk result (shown printed.new ≡ followed_by (shown printed.old) (trading (begun_by ready.now.host) ready.now.unread.number (lines ready.now.unread.text.now))) }
{
    let host = ready.host;
    match host.centre {
        Some(CentreKind::Pledge) => {
            let centre = PledgeCentre::new(host.pledges, host.margins).map_err(|_| anyhow!(
                "a pledge or margin is out of range"
            ))?;
            trade(&centre, ready, printed)?;
        }
        Some(CentreKind::Lots) | None => {
            let centre = LotsCentre::new(host.limits).map_err(|_| anyhow!(
                "a limit is out of range"
            ))?;
            trade(&centre, ready, printed)?;
        }
    }
    Ok(())
}

// Carries out a whole sheet on a printout, and adds what each of its lines prints.
fn hold(text: &[u8], printed: &mut Printout) -> anyhow::Result<()>
    ensures { OnOk result (shown printed.new ≡ followed_by (shown printed.old) (sheet_printed text.now)) }
{
    let ready = set_up(text, printed)?;
    trade_on(&ready, printed)
}

// Carries out a whole sheet, and adds what each of its lines prints; whether all lines of this sheet could be read, whatever
// was printed before it.
pub fn hold_day(text: &[u8], printed: &mut Printout) -> anyhow::Result<bool>
    ensures printed { OnOk result (shown printed.new ≡ followed_by (shown printed.old) (sheet_printed text.now)) }
    ensures read { IfOk result (λ read. read ≡ (sheet_printed text.now).all_read) }
{
    let before = mem::replace(&mut printed.all_read, true);
    let held = hold(text, printed);
    let read = printed.all_read;
    printed.all_read = before && read;
    held?;
    Ok(read)
}
