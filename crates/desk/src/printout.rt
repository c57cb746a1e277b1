ghost use Rattle.std.specs.Prelude.{◌≡◌, OnOk};
ghost use Rattle.sheet.specs.Faults.{told, fault_told};
ghost use Rattle.desk.specs.Days.{shown, nothing, followed_by, taken_printed, fault_printed};

use crate::answer::Answer;
use printing::faults::line_of_fault;
use printing::lines::line_of_reply;
use sheet::fault::Fault;
use std::alloc::{AllocError, Global};

// What is printed of a sheet so far, and whether all its lines so far could be read: a flag, since both are told together, and
// an unreadable line does not end the reading.
#[derive(Debug, PartialEq, Eq, Drop)]
pub struct Printout {
    pub text: String,
    pub all_read: bool,
}

impl Printout {
    // Nothing printed yet.
    pub fn new(heap: Global) -> Printout
        ensures { shown result ≡ nothing }
    {
        Printout {
            text: String::new(heap),
            all_read: true,
        }
    }

    // Adds that the line of this number is unreadable.
    pub(crate) fn add_fault(&mut self, number: usize, fault: Fault<&[u8]>) -> Result<(), AllocError>
        ensures { OnOk result (shown self.new ≡ followed_by (shown self.old) (fault_printed number (fault_told fault.entry))) }
    {
        let line = line_of_fault(*self.text.allocator(), number, fault)?;
        self.text.push_str(line.as_str())?;
        self.all_read = false;
        Ok(())
    }

    // Adds what became of the line of this number.
    pub(crate) fn add_taken(
        &mut self,
        number: usize,
        taken: Result<Option<Answer>, Fault<&[u8]>>,
    ) -> Result<(), AllocError>
        ensures { OnOk result (shown self.new ≡ followed_by (shown self.old) (taken_printed number (told taken.entry))) }
    {
        match taken {
            Ok(None) => Ok(()),
            Ok(Some(Answer { name, reply })) => {
                let line = line_of_reply(*self.text.allocator(), number, name.title(), &reply)?;
                self.text.push_str(line.as_str())
            }
            Err(fault) => self.add_fault(number, fault),
        }
    }
}
