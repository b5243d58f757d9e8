// Reads a plan file from standard input, and prints the listing of its plan or why it is refused.
#![tactic(auto)]

use channel_plan::file::MAX_FILE;
use channel_plan::report_on;
use std::io::Read;

fn run(rt: &HostRuntime) -> anyhow::Result<()> {
    let mut file = Vec::new(rt.alloc());
    // one byte more than a plan file may have tells that it is too long
    rt.stdin().take(MAX_FILE as u64 + 1).read_to_end(&mut file)?;
    let report = report_on(rt.alloc(), file.as_slice())?;
    rt.print(report)?;
    Ok(())
}

fn main(rt: HostRuntime) -> anyhow::Result<()> {
    run(&rt)
}
