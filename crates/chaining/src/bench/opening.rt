// Runs opened four blocks at a time.
ghost use Rattle.std.specs.Prelude.{◌≡◌, ◌%◌, ◌*◌, ◌+◌, ◌≤◌, length};
ghost use Rattle.std.specs.Int.{to_be_bytes, w64};
ghost use Rattle.chaining.specs.declared.direction.Direction.TheVariants.{Opening};
ghost use Rattle.chaining.specs.Runs.{Rewritten, block, chain_after};
ghost use Rattle.chaining.specs.internal.Fours.{four_of, opened_four};

use crate::bench::Bench;
use ciphers::{Cipher, Four};

// Block i, most significant byte first.
fn block(bytes: &[u8], i: usize) -> u64
    requires { 8 * i + 8 ≤ length bytes.now }
    ensures { result ≡ block bytes.now i }
{
    u64::from_be_bytes(*bytes[8 * i..8 * i + 8].as_array().unwrap())
}

// The four blocks of 32 bytes.
fn read_four(bytes: &[u8]) -> Four<u64>
    requires { length bytes.now ≡ 32 }
    ensures { result ≡ four_of bytes.now }
{
    Four {
        first: block(bytes, 0),
        second: block(bytes, 1),
        third: block(bytes, 2),
        fourth: block(bytes, 3),
    }
}

// Writes a block over eight bytes.
fn write_block(block: u64, bytes: &mut [u8])
    requires { length bytes.old ≡ 8 }
    ensures { bytes.new ≡ to_be_bytes w64 block }
{
    *bytes.as_mut_array().unwrap() = block.to_be_bytes();
}

// Writes four blocks over 32 bytes.
fn write_four(four: Four<u64>, bytes: &mut [u8])
    requires { length bytes.old ≡ 32 }
    ensures written { four_of bytes.new ≡ four }
    ensures len { length bytes.new ≡ 32 }
{
    let (front, back) = bytes.split_at_mut(16);
    let (first, second) = front.split_at_mut(8);
    let (third, fourth) = back.split_at_mut(8);
    write_block(four.first, first);
    write_block(four.second, second);
    write_block(four.third, third);
    write_block(four.fourth, fourth);
}

impl<C: Cipher> Bench<C> {
    // Four sealed blocks after the chain block, opened: all of them may be in flight at once.
    fn opened_four(&self, chain: u64, sealed: Four<u64>) -> Four<u64>
        ensures { result ≡ opened_four (C.Cipher.map self.now.cipher) chain sealed }
    {
        let four = self.cipher.seal_four(sealed);
        Four {
            first: four.first ^ chain,
            second: four.second ^ sealed.first,
            third: four.third ^ sealed.second,
            fourth: four.fourth ^ sealed.third,
        }
    }

    // Opens four blocks where they stand, and answers the last sealed one.
    fn open_four(&self, chain: u64, bytes: &mut [u8]) -> u64
        requires { length bytes.old ≡ 32 }
        ensures opened { four_of bytes.new ≡ opened_four (C.Cipher.map self.now.cipher) chain (four_of bytes.old) }
        ensures chain { result ≡ (four_of bytes.old).fourth }
    {
        let sealed = read_four(bytes);
        write_four(self.opened_four(chain, sealed), bytes);
        sealed.fourth
    }

    // Opens a run of whole fours, and answers the chain block that it leaves.
    #[tactic(auto, using(crate::proofs::Chains::begun_all, crate::proofs::Chains::chain_all))]
    fn open_fours(&self, chain: u64, run: &mut [u8]) -> u64
        requires { length run.old % 32 ≡ 0 }
        ensures opened { Rewritten Opening (C.Cipher.map self.now.cipher) chain run.old run.new }
        ensures chain { result ≡ chain_after Opening chain run.old run.new }
    {
        let mut last = chain;
        for i in 0..run.len() / 32 {
            last = self.open_four(last, &mut run[32 * i..32 * i + 32]);
        }
        last
    }

    // Opens a run: the whole fours, and then at most three blocks.
    pub(crate) fn open(&self, chain: u64, run: &mut [u8]) -> u64
        requires whole { length run.old % 8 ≡ 0 }
        requires opening { self.now.direction ≡ Opening }
        ensures opened { Rewritten Opening (C.Cipher.map self.now.cipher) chain run.old run.new }
        ensures chain { result ≡ chain_after Opening chain run.old run.new }
    {
        let (fours, rest) = run.split_at_mut(run.len() - run.len() % 32);
        let last = self.open_fours(chain, fours);
        self.rewrite_blocks(last, rest)
    }
}
