// What is printed of an input.
ghost use Rattle.std.specs.Prelude.{◌≡◌, IfOk};
ghost use Rattle.known_answers.specs.Runs.{tallied, verdicts_of};
ghost use Rattle.known_answers.specs.Tally.{none};

use crate::examiner::Examiner;
use crate::running::Run;
use crate::tally::{Tally, Verdict};
use std::io;

// A `match`, since a Result is not `Display`.
fn print_verdict(rt: &impl Print, number: usize, verdict: &Verdict) -> io::Result<()> {
    match verdict {
        Ok(()) => println!(rt; "{number} ok"),
        Err(fault) => println!(rt; "{number} {fault}"),
    }
}

// Prints a verdict for each line, and answers the totals of all of them.
fn print_verdicts<E: Examiner>(rt: &impl Print, input: &[u8]) -> io::Result<Tally>
    ensures { IfOk result (λ t. t ≡ tallied none (verdicts_of E.verdict input.now)) }
{
    let mut run = Run::<E>::new(input);
    let mut number: usize = 0;
    // Not `for .. in run.by_ref().enumerate()`: std does not say that `next` of a `&mut` keeps its reference, and then
    // nothing is known of the totals.
    while let Some(verdict) = run.next() {
        number = number.saturating_add(1);
        print_verdict(rt, number, &verdict)?;
    }
    Ok(run.tally())
}

// Prints a verdict for each line of an input, and then the totals, and answers them. A contract can say what is answered,
// not what is printed.
pub fn report<E: Examiner>(rt: &impl Print, input: &[u8]) -> io::Result<Tally>
    ensures { IfOk result (λ t. t ≡ tallied none (verdicts_of E.verdict input.now)) }
{
    let tally = print_verdicts::<E>(rt, input)?;
    let Tally {
        ok,
        differs,
        refused,
        unreadable,
    } = tally;
    println!(rt; "ok {ok} differs {differs} refused {refused} unreadable {unreadable}")?;
    Ok(tally)
}
