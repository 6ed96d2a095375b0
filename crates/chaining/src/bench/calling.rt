// The three calls of a session on a bench.
ghost use Rattle.std.specs.Prelude.{◌≡◌, length};
ghost use Rattle.chaining.specs.Benches.{state_of, Restarted, Turned, Passed};

use crate::bench::Bench;
use crate::judging::{judge_run, judge_start};
use ciphers::Cipher;
use refusals::Refusal;

impl<C: Cipher> Bench<C> {
    // Sets the chain block.
    pub fn restart(&mut self, start: &[u8]) -> Result<(), Refusal>
        ensures { Restarted (state_of C.Cipher.map self.old) start.now result (state_of C.Cipher.map self.new) }
    {
        self.chain = Some(judge_start(start)?);
        Ok(())
    }

    // Turns the cipher and changes the direction; the chain block stays.
    pub fn turn(&mut self)
        ensures { Turned (state_of C.Cipher.map self.old) (state_of C.Cipher.map self.new) }
    {
        self.cipher.turn();
        self.direction = self.direction.other();
    }

    // Rewrites a run of blocks where it stands.
    pub fn pass(&mut self, run: &mut [u8]) -> Result<(), Refusal>
        ensures len { length run.new ≡ length run.old }
        ensures passed { Passed (state_of C.Cipher.map self.old) run.old result run.new (state_of C.Cipher.map self.new) }
    {
        let chain = judge_run(run.len(), self.chain)?;
        self.chain = Some(self.rewrite(chain, run));
        Ok(())
    }
}
