// A session on two benches over XTEA.
ghost use Rattle.ciphers.specs.Maps.{SameMap};
ghost use Rattle.chaining.specs.Benches.{state_of};
ghost use Rattle.chaining.specs.Mirrors.{SessionLaw};
ghost use Rattle.xtea.specs.Xtea.{xtea};
ghost use Rattle.transcripts.specs.ReturnTrip.{Returned};

use chaining::{Bench, Call, mirror};
use ciphers::Cipher;
use xtea::{Cycles, Xtea};

// XTEA with its usual 32 cycles.
pub fn full_xtea(key: &[u8; 16]) -> Xtea
    ensures { SameMap (⟦<Xtea as Cipher>⟧.map result) (xtea key.now 32) }
{
    Xtea::new(key, Cycles::full())
}

// The first bench has the session, and the second, turned once, has it as the first left it. The calls hold afterwards
// what they brought, with both answers.
pub fn there_and_back(key: &[u8; 16], calls: &mut [Call]) -> (Bench<Xtea>, Bench<Xtea>)
    ensures law { SessionLaw }
    ensures returned { Returned key.now calls.old calls.new (state_of ⟦<Xtea as Cipher>⟧.map result.0) (state_of ⟦<Xtea as Cipher>⟧.map result.1) }
{
    mirror(full_xtea(key), full_xtea(key), calls)
}
