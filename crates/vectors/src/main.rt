// Reads known answers from standard input, seals and opens each, and prints a verdict for each line and then the totals.
#![tactic(auto)]

use known_answers::report::report;
use std::io::Read;
use trials::Piles;

fn run(rt: &HostRuntime) -> anyhow::Result<()> {
    let mut input = Vec::new(rt.alloc());
    let _ = rt.stdin().read_to_end(&mut input)?;
    let _ = report::<Piles>(rt, input.as_slice())?;
    Ok(())
}

fn main(rt: HostRuntime) -> anyhow::Result<()> {
    run(&rt)
}
