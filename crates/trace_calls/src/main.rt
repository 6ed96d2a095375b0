// Reads calls of trace files from standard input, one to a line, makes each on piles and an output of its own, and prints
// what it answered and what it left.
#![tactic(auto)]

mod calls;
mod faults;
mod fields;
mod making;
mod showing;

use crate::calls::read;
use crate::faults::Fault;
use crate::making::make;
use known_answers::lines::Lines;
use std::alloc::Global;
use std::io::Read;

// What is printed of a line.
fn answer(alloc: Global, line: &[u8]) -> Result<String, Fault> {
    make(alloc, &read(alloc, line)?)
}

// Prints what comes of each line. Only memory that is wanting ends it early.
fn print_answers(rt: &impl Print, alloc: Global, input: &[u8]) -> anyhow::Result<()> {
    let mut number: usize = 0;
    for line in Lines::new(input) {
        number = number.saturating_add(1);
        match answer(alloc, line) {
            Ok(text) => println!(rt; "{number} {text}")?,
            Err(Fault::Memory(error)) => return Err(error.into()),
            Err(fault) => println!(rt; "{number} {fault}")?,
        }
    }
    Ok(())
}

fn run(rt: &HostRuntime) -> anyhow::Result<()> {
    let mut input = Vec::new(rt.alloc());
    let _ = rt.stdin().read_to_end(&mut input)?;
    print_answers(rt, rt.alloc(), input.as_slice())
}

fn main(rt: HostRuntime) -> anyhow::Result<()> {
    run(&rt)
}
