// Which runs and starts are taken.
ghost use Rattle.std.specs.Prelude.{◌≡◌};
ghost use Rattle.chaining.specs.Benches.{judged_run, judged_start};

use refusals::Refusal;

// The most bytes of a run.
const LONGEST: usize = 32_768;

// The chain block with which a run of a length is taken.
pub(crate) fn judge_run(length: usize, chain: Option<u64>) -> Result<u64, Refusal>
    ensures { result ≡ judged_run length chain }
{
    if length > LONGEST {
        return Err(Refusal::RunTooLong);
    }
    if length % 8 != 0 {
        return Err(Refusal::RunNotWhole);
    }
    chain.ok_or(Refusal::NoChainBlock)
}

// The chain block that a start sets, most significant byte first.
pub(crate) fn judge_start(start: &[u8]) -> Result<u64, Refusal>
    ensures { result ≡ judged_start start.now }
{
    let bytes = start.try_into().map_err(|_| Refusal::StartLength)?;
    Ok(u64::from_be_bytes(bytes))
}
