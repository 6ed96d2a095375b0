// Sessions on benches.
ghost use Rattle.ciphers.specs.Maps.{SameMap};
ghost use Rattle.chaining.specs.Benches.{state_of, begun, Turned};
ghost use Rattle.chaining.specs.Mirrors.{SessionLaw, Mirrored, GivenBack};
ghost use Rattle.chaining.specs.Sessions.{asked, Does, Served};
ghost use Rattle.chaining.specs.internal.OneCall.{ServedCall};

use crate::bench::Bench;
use crate::calls::{Call, Request};
use ciphers::Cipher;
use refusals::Refusal;

// Does what is asked.
fn answer<C: Cipher>(bench: &mut Bench<C>, request: &mut Request<Vec<u8>>) -> Result<(), Refusal>
    ensures { Does (state_of C.Cipher.map bench.old) (asked request.old) result (asked request.new) (state_of C.Cipher.map bench.new) }
{
    match request {
        Request::Pass(run) => bench.pass(run),
        Request::Turn => {
            bench.turn();
            Ok(())
        }
        Request::Restart(start) => bench.restart(start),
    }
}

// Does what a call asks, and writes the answer beside the one that it had.
fn serve_call<C: Cipher>(bench: &mut Bench<C>, call: &mut Call)
    ensures { ServedCall (state_of C.Cipher.map bench.old) call.old call.new (state_of C.Cipher.map bench.new) }
{
    call.earlier = call.answer;
    call.answer = Some(answer(bench, &mut call.request));
}

// A session: the calls in order.
pub fn serve<C: Cipher>(bench: &mut Bench<C>, calls: &mut [Call])
    ensures { Served (state_of C.Cipher.map bench.old) calls.old calls.new (state_of C.Cipher.map bench.new) }
{
    for call in calls.iter_mut() {
        serve_call(bench, call);
    }
}

// A new bench, turned once.
fn turned<C: Cipher>(cipher: C) -> Bench<C>
    ensures { Turned (begun (C.Cipher.map cipher)) (state_of C.Cipher.map result) }
{
    let mut bench = Bench::new(cipher);
    bench.turn();
    bench
}

// A session on two new benches: the first has it, the second is turned once and has it as the first left it.
// Where both ciphers have one map, the calls hold afterwards what they brought.
pub fn mirror<A: Cipher, B: Cipher>(first: A, second: B, calls: &mut [Call]) -> (Bench<A>, Bench<B>)
    ensures ran { Mirrored (A.Cipher.map first) (B.Cipher.map second) calls.old calls.new (state_of A.Cipher.map result.0) (state_of B.Cipher.map result.1) }
    ensures given_back { SameMap (A.Cipher.map first) (B.Cipher.map second) → GivenBack calls.old calls.new (state_of A.Cipher.map result.0) (state_of B.Cipher.map result.1) }
    ensures law { SessionLaw }
{
    let mut there = Bench::new(first);
    serve(&mut there, calls);
    let mut back = turned(second);
    serve(&mut back, calls);
    (there, back)
}
