// Reads sessions from standard input, runs each on two benches over XTEA, and prints what every call brought, what the
// first bench left and answered, and what the second made of that. Both run over one session, so what the first left is
// shown by a further bench under the same key.
#![tactic(auto)]

ghost use Rattle.std.specs.Prelude.{◌≡◌, ◌≤◌, [], ◌++◌, length, OnOk};
ghost use Rattle.chaining.specs.Sessions.{requests};
ghost use Rattle.transcripts.specs.Lines.{line_of};
ghost use Rattle.sessions.specs.internal.Calls.{with_call, calls_of};

mod printing;

use crate::printing::Trip;
use chaining::{Bench, Call, serve};
use known_answers::lines::Lines;
use std::io;
use std::io::Read;
use transcripts::{Line, copied, full_xtea, read, there_and_back};
use xtea::Xtea;

// Prints each call of a session. There are three slices of them, as brought and as two services left them, since a bench
// is served a slice of calls.
fn print_calls(
    rt: &HostRuntime,
    brought: &[Call],
    between: &[Call],
    after: &[Call],
) -> io::Result<()> {
    let trips = brought.iter().zip(between.iter()).zip(after.iter());
    for (before, ((brought, between), after)) in trips.enumerate() {
        let number = before + 1;
        let trip = Trip {
            brought,
            between,
            after,
        };
        println!(rt; "{number} {trip}")?;
    }
    Ok(())
}

// A `match`, since an Option has no text of its own.
fn print_bench(rt: &HostRuntime, name: &str, bench: &Bench<Xtea>) -> io::Result<()> {
    let direction = bench.direction();
    match bench.chain() {
        Some(chain) => println!(rt; "{name} {direction} chain {chain:016X}"),
        None => println!(rt; "{name} {direction} no chain"),
    }
}

// Reads a line of a session: adds what is a call, and says where it is none.
fn read_line(rt: &HostRuntime, line: &[u8], calls: &mut Vec<Call>) -> anyhow::Result<()>
    ensures { OnOk result (requests calls.new.items ≡ requests calls.old.items ++ with_call (line_of line.now) []) }
{
    let Some(Line::Call(request)) = read(rt.alloc(), line)? else {
        println!(rt; "unreadable")?;
        return Ok(());
    };
    calls.push(Call::new(request))?;
    Ok(())
}

// Reads the calls of a session, up to an empty line. The handle and the lines stay apart, since clauses speak of the lines.
#[tactic(auto, using(crate::proofs::Reading::reading))]
fn read_calls(rt: &HostRuntime, lines: &mut Lines<'_>, calls: &mut Vec<Call>) -> anyhow::Result<()>
    ensures fewer { length lines.new ≤ length lines.old }
    ensures calls { OnOk result (requests calls.new.items ≡ requests calls.old.items ++ calls_of lines.old) }
{
    // After a `for` nothing would be known of the lines that are left.
    while let Some(line) = lines.next() {
        if line.is_empty() {
            break;
        }
        read_line(rt, line, calls)?;
    }
    Ok(())
}

// Runs a session under a key, and prints it.
fn run_session(rt: &HostRuntime, key: &[u8; 16], brought: &[Call]) -> anyhow::Result<()> {
    let mut between = copied(rt.alloc(), brought)?;
    let mut after = copied(rt.alloc(), brought)?;
    let mut bench = Bench::new(full_xtea(key));
    serve(&mut bench, between.as_mut_slice());
    let (first, second) = there_and_back(key, after.as_mut_slice());
    print_calls(rt, brought, between.as_slice(), after.as_slice())?;
    print_bench(rt, "first", &first)?;
    print_bench(rt, "second", &second)?;
    Ok(())
}

// A session under a key that was read; a key of other than sixteen bytes gives none.
fn begin(rt: &HostRuntime, lines: &mut Lines<'_>, key: &[u8]) -> anyhow::Result<()>
    ensures { length lines.new ≤ length lines.old }
{
    let mut brought = Vec::new(rt.alloc());
    read_calls(rt, lines, &mut brought)?;
    match <&[u8; 16]>::try_from(key) {
        Ok(key) => run_session(rt, key, brought.as_slice()),
        Err(_) => {
            println!(rt; "no session: a key has 16 bytes")?;
            Ok(())
        }
    }
}

// The key of the next session, if one follows; any other line before it is unreadable.
fn next_key(rt: &HostRuntime, lines: &mut Lines<'_>) -> anyhow::Result<Option<Vec<u8>>> {
    for line in lines {
        match read(rt.alloc(), line)? {
            Some(Line::Key(key)) => return Ok(Some(key)),
            _ => println!(rt; "unreadable")?,
        }
    }
    Ok(None)
}

fn run(rt: &HostRuntime) -> anyhow::Result<()> {
    let mut input = Vec::new(rt.alloc());
    let _ = rt.stdin().read_to_end(&mut input)?;
    let mut lines = Lines::new(input.as_slice());
    // A `while let` would have to count the sessions by hand.
    for number in 1..=usize::MAX {
        let Some(key) = next_key(rt, &mut lines)? else {
            break;
        };
        println!(rt; "session {number}")?;
        begin(rt, &mut lines, key.as_slice())?;
    }
    Ok(())
}

fn main(rt: HostRuntime) -> anyhow::Result<()> {
    run(&rt)
}
