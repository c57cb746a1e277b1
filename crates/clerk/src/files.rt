use anyhow::anyhow;
use desk::joining::add_file;
use std::io::Read;
use std::{env, fs};

fn read_file(rt: &HostRuntime, path: &str) -> anyhow::Result<Vec<u8>> {
    fs::read(rt, path).map_err(|error| anyhow!("cannot read {path}: {error}"))
}

// The files named as arguments, one after another, or standard input where there are none.
pub(crate) fn read_sheet(rt: &HostRuntime) -> anyhow::Result<Vec<u8>> {
    let mut sheet = Vec::new(rt.alloc());
    let mut paths = env::args(rt)?.skip(1).peekable();
    if paths.peek().is_none() {
        rt.stdin().read_to_end(&mut sheet)?;
    }
    for path in paths {
        let text = read_file(rt, path.as_str())?;
        add_file(&mut sheet, text.as_slice())?;
    }
    Ok(sheet)
}
