// Closes a trace under a pile, opens the file under a second pile of the same description and key, and writes both where
// what was opened is what was closed. It runs in a folder with the files pile.txt, key.bin, start.bin and plain.bin.
#![tactic(auto)]

mod arguments;
mod failures;
mod files;
mod meanings;
mod trips;

use crate::arguments::label;
use crate::failures::Failure;
use crate::files::{Inputs, write};
use crate::trips::{Trip, two_piles};
use plans::read;
use std::alloc::{AllocError, Global};
use std::process::ExitCode;
use traces::Header;

fn print_plan(rt: &impl Print, description: &[u8]) -> Result<(), Failure> {
    let plan = read(description)?;
    print!(rt; "plan:")?;
    for stage in plan.stages() {
        print!(rt; " {stage}")?;
    }
    println!(rt; "")?;
    Ok(())
}

// All of few bytes, and of more the first and the last.
fn ends(alloc: Global, bytes: &[u8]) -> Result<String, AllocError> {
    let count = bytes.len();
    if count <= 24 {
        return hex::encode_upper(alloc, bytes);
    }
    let first = hex::encode_upper(alloc, &bytes[..16])?;
    let last = hex::encode_upper(alloc, &bytes[count - 8..])?;
    format!(in alloc; "{first}..{last}")
}

fn print_trip(rt: &(impl Print + AllocGlobal), trip: &Trip) -> Result<(), Failure> {
    let Header {
        axis,
        serial,
        number,
    } = trip.header;
    println!(rt; "header: {axis}, serial number {serial}, trace number {number}")?;
    let (plain, file) = (trip.opened.len(), trip.file.len());
    println!(rt; "plain: {plain} bytes")?;
    let ends = ends(rt.alloc(), trip.file.as_slice())?;
    println!(rt; "file: {file} bytes, {ends}")?;
    println!(rt; "opened again: the same {plain} bytes and the same label")?;
    Ok(())
}

fn run(rt: &HostRuntime) -> Result<(), Failure> {
    let label = label(rt)?;
    let mut inputs = Inputs::read(rt)?;
    print_plan(rt, inputs.description.as_slice())?;
    let piles = two_piles(inputs.description.as_slice(), &mut inputs.key)?;
    let trip = Trip::made(rt.alloc(), piles, label, &inputs)?;
    print_trip(rt, &trip)?;
    write(rt, "trace.bin", trip.file.as_slice())?;
    write(rt, "opened.bin", trip.opened.as_slice())?;
    println!(rt; "written: trace.bin, opened.bin")?;
    Ok(())
}

fn main(rt: HostRuntime) -> ExitCode {
    match run(&rt) {
        Ok(()) => ExitCode::SUCCESS,
        Err(failure) => {
            failure.print(&rt);
            ExitCode::FAILURE
        }
    }
}
