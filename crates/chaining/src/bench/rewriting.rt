// Runs of blocks, rewritten in place: cipher block chaining.
ghost use Rattle.std.specs.Prelude.{◌≡◌, ◌%◌, length};
ghost use Rattle.std.specs.Int.{w64, from_be_bytes};
ghost use Rattle.chaining.specs.Runs.{chained, sealed_of, Rewritten, chain_after};

use crate::bench::Bench;
use crate::direction::Direction;
use ciphers::Cipher;

// Contracts name the direction and the map, since the definitions of a chain speak of no bench.
impl<C: Cipher> Bench<C> {
    // What the cipher makes of a block after the chain block.
    fn chained(&self, chain: u64, block: u64) -> u64
        ensures { result ≡ chained self.now.direction (C.Cipher.map self.now.cipher) chain block }
    {
        match self.direction {
            Direction::Sealing => self.cipher.seal(block ^ chain),
            Direction::Opening => self.cipher.seal(block) ^ chain,
        }
    }

    // Rewrites a block, most significant byte first, and answers the chain block for the next one.
    fn rewrite_block(&self, chain: u64, block: &mut [u8]) -> u64
        requires { length block.old ≡ 8 }
        ensures written { from_be_bytes w64 block.new ≡ chained self.now.direction (C.Cipher.map self.now.cipher) chain (from_be_bytes w64 block.old) }
        ensures chain { result ≡ sealed_of self.now.direction (from_be_bytes w64 block.old) (from_be_bytes w64 block.new) }
    {
        let bytes = block.as_mut_array::<8>().unwrap();
        let brought = u64::from_be_bytes(*bytes);
        let left = self.chained(chain, brought);
        *bytes = left.to_be_bytes();
        self.direction.sealed_of(brought, left)
    }

    // Rewrites the whole run block by block, and answers the chain block that it leaves.
    #[tactic(auto, using(crate::proofs::Chains::begun_all, crate::proofs::Chains::chain_all))]
    pub(crate) fn rewrite_blocks(&self, chain: u64, run: &mut [u8]) -> u64
        requires { length run.old % 8 ≡ 0 }
        ensures rewritten { Rewritten self.now.direction (C.Cipher.map self.now.cipher) chain run.old run.new }
        ensures chain { result ≡ chain_after self.now.direction chain run.old run.new }
    {
        let mut latest = chain;
        // By index: after a loop over mutable chunks nothing is known of what the run ends as.
        for i in 0..run.len() / 8 {
            latest = self.rewrite_block(latest, &mut run[8 * i..8 * i + 8]);
        }
        latest
    }

    // Rewrites the whole run. To seal a block takes the sealed one before it, but to open one does not take the opened one.
    pub(crate) fn rewrite(&self, chain: u64, run: &mut [u8]) -> u64
        requires { length run.old % 8 ≡ 0 }
        ensures rewritten { Rewritten self.now.direction (C.Cipher.map self.now.cipher) chain run.old run.new }
        ensures chain { result ≡ chain_after self.now.direction chain run.old run.new }
    {
        match self.direction {
            Direction::Sealing => self.rewrite_blocks(chain, run),
            Direction::Opening => self.open(chain, run),
        }
    }
}
