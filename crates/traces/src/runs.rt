// Runs sealed and opened on a bench, to which the pile is lent.
ghost use Rattle.std.specs.Prelude.{◌≡◌, ◌%◌, ◌≤◌, length};
ghost use Rattle.ciphers.specs.Maps.{Inverse, SameMap};
ghost use Rattle.chaining.specs.declared.direction.Direction.TheVariants.{Opening, Sealing};
ghost use Rattle.chaining.specs.Runs.{Rewritten};
ghost use Rattle.traces.specs.Files.{OnlyRun};

use chaining::Bench;
use ciphers::Cipher;
use piles::Pile;
use std::mem;

// Restarts a bench, and passes a run.
#[tactic(auto, using(crate::proofs::Lending::start_block))]
fn pass_after(bench: &mut Bench<Pile>, start: u64, run: &mut [u8])
    requires few { length run.old ≤ 32768 }
    requires whole { length run.old % 8 ≡ 0 }
    ensures rewritten { Rewritten bench.old.direction (⟦<Pile as Cipher>⟧.map bench.old.cipher) start run.old run.new }
    ensures map { ⟦<Pile as Cipher>⟧.map bench.new.cipher ≡ ⟦<Pile as Cipher>⟧.map bench.old.cipher }
    ensures direction { bench.new.direction ≡ bench.old.direction }
{
    bench.restart(&start.to_be_bytes()).unwrap();
    bench.pass(run).unwrap();
}

// Seals a run as a new bench does that is restarted with a start.
pub(crate) fn seal_run(pile: &mut Pile, start: u64, run: &mut [u8])
    requires few { length run.old ≤ 32768 }
    requires whole { length run.old % 8 ≡ 0 }
    ensures sealed { Rewritten Sealing (⟦<Pile as Cipher>⟧.map pile.old) start run.old run.new }
    ensures map { ⟦<Pile as Cipher>⟧.map pile.new ≡ ⟦<Pile as Cipher>⟧.map pile.old }
{
    let mut bench = Bench::new(mem::replace(pile, Pile::new()));
    pass_after(&mut bench, start, run);
    *pile = bench.into_cipher();
}

// A new bench, turned once.
fn opening_bench(pile: &mut Pile) -> Bench<Pile>
    ensures map { Inverse (⟦<Pile as Cipher>⟧.map pile.old) (⟦<Pile as Cipher>⟧.map result.cipher) }
    ensures direction { result.direction ≡ Opening }
{
    let mut bench = Bench::new(mem::replace(pile, Pile::new()));
    bench.turn();
    bench
}

// The pile of a bench, turned once more.
fn turned_back(bench: Bench<Pile>) -> Pile
    ensures { Inverse (⟦<Pile as Cipher>⟧.map bench.cipher) (⟦<Pile as Cipher>⟧.map result) }
{
    let mut pile = bench.into_cipher();
    pile.turn();
    pile
}

// Opens a run that was sealed so.
pub(crate) fn open_run(pile: &mut Pile, start: u64, run: &mut [u8])
    requires few { length run.old ≤ 32768 }
    requires whole { length run.old % 8 ≡ 0 }
    ensures len { length run.new ≡ length run.old }
    ensures opened { OnlyRun (⟦<Pile as Cipher>⟧.map pile.old) start run.old run.new }
    ensures map { SameMap (⟦<Pile as Cipher>⟧.map pile.new) (⟦<Pile as Cipher>⟧.map pile.old) }
{
    let mut bench = opening_bench(pile);
    pass_after(&mut bench, start, run);
    *pile = turned_back(bench);
}
