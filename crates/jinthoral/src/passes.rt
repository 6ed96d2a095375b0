// Runs passed on a new bench.
ghost use Rattle.std.specs.Prelude.{◌≡◌, length, replicate};
ghost use Rattle.chaining.specs.declared.direction.Direction.TheVariants.{Sealing};
ghost use Rattle.piles.specs.Fitting.{fitting};
ghost use Rattle.jinthoral.specs.Calls.{MapOf, Passes, Under, direction_of};

use chaining::Bench;
use ciphers::Cipher;
use piles::Pile;
use refusals::Refusal;

// Turns a new bench where it is to open.
fn face(bench: &mut Bench<Pile>, opening: bool)
    requires { bench.old.direction ≡ Sealing }
    ensures map { MapOf (direction_of opening) (⟦<Pile as Cipher>⟧.map bench.old.cipher) (⟦<Pile as Cipher>⟧.map bench.new.cipher) }
    ensures direction { bench.new.direction ≡ direction_of opening }
{
    if opening {
        bench.turn();
    }
}

// Restarts a new bench, turned where it is to open, and passes a run.
#[tactic(auto, unfolding(crate::specs::Calls::Passes))]
fn pass_on(pile: Pile, opening: bool, start: &[u8], run: &mut [u8]) -> Result<usize, Refusal>
    ensures { Passes (direction_of opening) start.now (⟦<Pile as Cipher>⟧.map pile) run.old result run.new }
{
    let mut bench = Bench::new(pile);
    face(&mut bench, opening);
    bench.restart(start)?;
    bench.pass(run)?;
    Ok(run.len())
}

// Fits a pile, and passes a run under it.
pub(crate) fn pass(
    description: &[u8],
    key: &mut [u8],
    opening: bool,
    start: &[u8],
    run: &mut [u8],
) -> Result<usize, Refusal>
    ensures pass { Under (fitting description.now key.old) key.old (λ S. Passes (direction_of opening) start.now S) run.old run.new result }
    ensures blank { key.new ≡ replicate (length key.old) 0 }
{
    let pile = Pile::fitted(description, key)?;
    pass_on(pile, opening, start, run)
}
