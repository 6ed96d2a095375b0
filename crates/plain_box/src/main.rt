// Reads known answers of the plain box from standard input, and prints a verdict for each line and then the totals.
#![tactic(auto)]

mod examining;
mod plain;
mod rounds;

use examining::PlainBoxes;
use known_answers::report::report;
use std::io::Read;

fn run(rt: &HostRuntime) -> anyhow::Result<()> {
    let mut input = Vec::new(rt.alloc());
    let _ = rt.stdin().read_to_end(&mut input)?;
    let _ = report::<PlainBoxes>(rt, input.as_slice())?;
    Ok(())
}

fn main(rt: HostRuntime) -> anyhow::Result<()> {
    run(&rt)
}
