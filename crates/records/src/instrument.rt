ghost use Rattle.std.specs.Prelude.{◌≡◌, true};
ghost use Rattle.records.specs.Ranges.{instrument_in_range};

use crate::terms::InstrumentTerms;

// An instrument: terms whose fields all lie in their ranges.
#[derive(Clone, Copy, Debug, PartialEq, Eq)]
pub struct Instrument {
    pub terms: InstrumentTerms,
    ghost ranges: { instrument_in_range terms ≡ true },
}
