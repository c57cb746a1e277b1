ghost use Rattle.std.specs.Prelude.{◌++◌, ◌≡◌, OnOk};
ghost use Rattle.desk.specs.Joining.{ended};

use std::alloc::AllocError;

// Adds a file's bytes to a sheet; the file's last line ends with the file.
pub fn add_file(sheet: &mut Vec<u8>, text: &[u8]) -> Result<(), AllocError>
    ensures { OnOk result (sheet.new.items ≡ sheet.old.items ++ ended text.now) }
{
    sheet.extend_from_slice(text)?;
    if text.last().is_some_and(|last| *last != b'\n') {
        sheet.push(b'\n')?;
    }
    Ok(())
}
