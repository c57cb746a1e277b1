// The clerk's program: a day sheet is read, carried out on one market, and answered line by line.
#![tactic(auto)]

mod files;

use crate::files::read_sheet;
use anyhow::ensure;
use desk::day::hold_day;
use desk::printout::Printout;

fn run(rt: &HostRuntime) -> anyhow::Result<()> {
    let sheet = read_sheet(rt)?;
    let mut printed = Printout::new(rt.alloc());
    let all_read = hold_day(sheet.as_slice(), &mut printed)?;
    rt.print(printed.text.as_str())?;
    ensure!(all_read, "a line is unreadable");
    Ok(())
}

fn main(rt: HostRuntime) -> anyhow::Result<()> {
    run(&rt)
}
