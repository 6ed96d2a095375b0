// The layers of a plan's stages, as the key's bytes are given out to them.
ghost use Rattle.std.specs.Prelude.{◌≡◌, ◌≤◌, ℕ, ◌^◌, ◌<◌, ◌-◌, length};
ghost use Rattle.std.specs.List.{sum_by};
ghost use Rattle.ciphers.specs.Maps.{SameMap};
ghost use Rattle.plans.specs.Stages.{key_length};
ghost use Rattle.piles.specs.Keyed.{sealed_by, sealed_by_all};
ghost use Rattle.piles.specs.internal.Layers.{layered};

use crate::layers::Layer;
use ciphers::{Cipher, Pair};
use plans::Stage;

// Four layers, from left to right.
pub(crate) type Layers = Pair<Pair<Layer, Layer>, Pair<Layer, Layer>>;

// The stages that have no layer yet, and the bytes of the key that are left for them.
#[derive(Drop)]
struct Supply<'a> {
    stages: &'a [Stage],
    key: &'a [u8],
}

impl<'a> Supply<'a> {
    // The layer of the first stage, which takes its bytes of the key; an empty one where no stage is left.
    fn next(&mut self) -> Layer
        requires { length self.old.key.now ≡ sum_by key_length self.old.stages.now }
        ensures key { length self.new.key.now ≡ sum_by key_length self.new.stages.now }
        ensures stages { length self.new.stages.now ≡ length self.old.stages.now - 1 }
        ensures map { (b : ℕ) → b < 2 ^ 64 → sealed_by_all self.old.stages.now self.old.key.now b ≡ sealed_by_all self.new.stages.now self.new.key.now (layered result b) }
        ensures fits { (b : ℕ) → b < 2 ^ 64 → layered result b < 2 ^ 64 }
    {
        match self.stages {
            [] => Layer::Empty,
            [stage, stages @ ..] => {
                let (key, rest) = self.key.split_at(stage.key_length());
                self.stages = stages;
                self.key = rest;
                Layer::new(*stage, key)
            }
        }
    }
}

// Puts the layer of a stage, which takes all of the key, in the first of the places, and empty ones in the others. A call
// of its own, as `fill` is: a function pays at entry for the room of its locals, and one stage needs a single layer's.
#[inline(never)]
fn fill_one(layers: &mut Layers, stage: Stage, key: &[u8])
    requires { length key.now ≡ key_length stage }
    ensures { SameMap (⟦<Layers as Cipher>⟧.map layers.new) (sealed_by stage key.now) }
{
    *layers = Pair::new(
        Pair::new(Layer::new(stage, key), Layer::Empty),
        Pair::new(Layer::Empty, Layer::Empty),
    );
}

// Puts the layers of some stages, each with its bytes of the key, in the places.
#[inline(never)]
fn fill(layers: &mut Layers, stages: &[Stage], key: &[u8])
    requires few { length stages.now ≤ 4 }
    requires enough { length key.now ≡ sum_by key_length stages.now }
    ensures { SameMap (⟦<Layers as Cipher>⟧.map layers.new) (sealed_by_all stages.now key.now) }
{
    let mut supply = Supply { stages, key };
    *layers = Pair::new(
        Pair::new(supply.next(), supply.next()),
        Pair::new(supply.next(), supply.next()),
    );
}

// The layers of some stages, each with its bytes of the key.
#[tactic(auto, using(crate::proofs::Alone::alone))]
pub(crate) fn layers(stages: &[Stage], key: &[u8]) -> Layers
    requires few { length stages.now ≤ 4 }
    requires enough { length key.now ≡ sum_by key_length stages.now }
    ensures { SameMap (⟦<Layers as Cipher>⟧.map result) (sealed_by_all stages.now key.now) }
{
    let mut layers = Pair::new(
        Pair::new(Layer::Empty, Layer::Empty),
        Pair::new(Layer::Empty, Layer::Empty),
    );
    match stages {
        [stage] => fill_one(&mut layers, *stage, key),
        _ => fill(&mut layers, stages, key),
    }
    layers
}
