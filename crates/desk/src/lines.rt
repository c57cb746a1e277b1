ghost use Rattle.std.specs.Prelude.{◌≡◌, false};
ghost use Rattle.market.specs.Views.{view, KeepsUnused};
ghost use Rattle.sheet.specs.Entries.{line_read};
ghost use Rattle.sheet.specs.Faults.{told};
ghost use Rattle.desk.specs.Lines.{line_settled, line_after, line_taken, says_call};

use crate::answer::Answer;
use crate::answering::{ask, carry_out};
use crate::host::Host;
use market::market::Market;
use rulebook::centre::ClearingCentre;
use sheet::entry::Entry;
use sheet::fault::Fault;
use sheet::reading::read_line;

// Carries out a line that stands before the first call or question, and gives the host behind it; none where the line is that
// call or question.
pub fn settle_line<'l>(host: Host, line: &'l [u8]) -> Result<Option<Host>, Fault<&'l [u8]>>
    ensures { told result ≡ line_settled host (line_read line.now) }
{
    match read_line(line)? {
        None => Ok(Some(host)),
        Some(Entry::SetUp(set_up)) => host.with(set_up).map(Some),
        Some(Entry::Call(_) | Entry::Question(_)) => Ok(None),
    }
}

// Carries out a line that stands behind the first call or question, or is it; a line that says nothing gets no answer. A line
// that is no call changes nothing.
pub fn take_line<'l, C: ClearingCentre>(
    market: &mut Market,
    centre: &C,
    line: &'l [u8],
) -> Result<Option<Answer>, Fault<&'l [u8]>>
    ensures taken { told result ≡ line_taken (line_read line.now) (view market.old) }
    ensures state { view market.new ≡ line_after (line_read line.now) (view market.old) }
    ensures orders { KeepsUnused market.old.orders market.new.orders }
    ensures trades { KeepsUnused market.old.trades market.new.trades }
    ensures unchanged { says_call (line_read line.now) ≡ false → market.new ≡ market.old }
{
    match read_line(line)? {
        None => Ok(None),
        Some(Entry::SetUp(_)) => Err(Fault::TooLate),
        Some(Entry::Call(call)) => {
            let name = call.name();
            let reply = carry_out(market, centre, call);
            Ok(Some(Answer { name, reply }))
        }
        Some(Entry::Question(question)) => {
            let name = question.name();
            let reply = ask(market, question);
            Ok(Some(Answer { name, reply }))
        }
    }
}
