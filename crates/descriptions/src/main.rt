// Reads descriptions from standard input, one to a line, and prints the plan that each is read as, or where it is refused.
#![tactic(auto)]

use known_answers::lines::Lines;
use plans::{Plan, read};
use refusals::{Notice, Refusal};
use std::io;
use std::io::Read;

// Prints the stages, the bytes of a key that they take, and whether the plan is the last one again.
fn print_plan(rt: &impl Print, plan: &Plan, last: &Option<Plan>) -> io::Result<()> {
    for stage in plan.stages() {
        print!(rt; "{stage} ")?;
    }
    let bytes = plan.key_length();
    match last {
        Some(last) if plan.same(last) => println!(rt; "takes {bytes} bytes, as before"),
        _ => println!(rt; "takes {bytes} bytes"),
    }
}

fn print_refusal(rt: &impl Print, refusal: Refusal) -> io::Result<()> {
    let notice = Notice::from(refusal);
    println!(rt; "refused {notice}")
}

// Prints what each line is read as.
fn print_plans(rt: &impl Print, input: &[u8]) -> io::Result<()> {
    let mut last = None;
    let mut number: usize = 0;
    for description in Lines::new(input) {
        number = number.saturating_add(1);
        print!(rt; "{number} ")?;
        match read(description) {
            Ok(plan) => {
                print_plan(rt, &plan, &last)?;
                last = Some(plan);
            }
            Err(refusal) => print_refusal(rt, refusal)?,
        }
    }
    Ok(())
}

fn run(rt: &HostRuntime) -> anyhow::Result<()> {
    let mut input = Vec::new(rt.alloc());
    let _ = rt.stdin().read_to_end(&mut input)?;
    print_plans(rt, input.as_slice())?;
    Ok(())
}

fn main(rt: HostRuntime) -> anyhow::Result<()> {
    run(&rt)
}
