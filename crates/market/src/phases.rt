ghost use Rattle.std.specs.Prelude.{◌≡◌, true, false, is_ok};
ghost use Rattle.market.specs.Calls.{turned_to, resume as resume_of, suspend as suspend_of};
ghost use Rattle.market.specs.Grounds.{ByTheGrounds, order, resume_call, suspend_call};
ghost use Rattle.market.specs.Strikes.{ResumeStrikes, SuspendStrikes};
ghost use Rattle.market.specs.Views.{view, HasOutcome};

use crate::market::Market;
use crate::refusal::Refusal;
use records::codes::Phase;
use rulebook::centre::ClearingCentre;
use rulebook::rule::InstrumentRule;

impl Market<'_> {
    // The market is then in this phase; turned away while it is already.
    fn turn_to(&mut self, phase: Phase) -> Result<(), Refusal>
        ensures outcome { HasOutcome self.old self.new result (turned_to phase (view self.old)) }
        ensures unchanged { is_ok result ≡ false → self.new ≡ self.old }
    {
        if self.phase == phase {
            return Err(Refusal::WrongPhase);
        }
        self.phase = phase;
        Ok(())
    }

    // The market is then trading; turned away while it is already.
    pub fn resume<R: InstrumentRule, C: ClearingCentre>(
        &mut self,
        _rule: &R,
        _centre: &C,
    ) -> Result<(), Refusal>
        ensures outcome { HasOutcome self.old self.new result (resume_of (view self.old)) }
        ensures grounds { ByTheGrounds (order resume_call) (ResumeStrikes (view self.old)) result }
        ensures unchanged { is_ok result ≡ false → self.new ≡ self.old }
    {
        self.turn_to(Phase::Trading)
    }

    // The market is then suspended; turned away while it is already.
    pub fn suspend<R: InstrumentRule, C: ClearingCentre>(
        &mut self,
        _rule: &R,
        _centre: &C,
    ) -> Result<(), Refusal>
        ensures outcome { HasOutcome self.old self.new result (suspend_of (view self.old)) }
        ensures grounds { ByTheGrounds (order suspend_call) (SuspendStrikes (view self.old)) result }
        ensures unchanged { is_ok result ≡ false → self.new ≡ self.old }
    {
        self.turn_to(Phase::Suspended)
    }
}
