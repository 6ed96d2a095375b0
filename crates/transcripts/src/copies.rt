// Copies of a session's calls.
ghost use Rattle.std.specs.Prelude.{IfOk};
ghost use Rattle.transcripts.specs.Copies.{Copied};
ghost use Rattle.transcripts.specs.internal.OneCopy.{IsCopy};

use chaining::Call;
use std::alloc::{AllocError, Global};

// The same request, not yet answered.
fn copy(call: &Call) -> Result<Call, AllocError>
    ensures { IfOk result (IsCopy call.now) }
{
    Ok(Call::new(call.request.clone()?))
}

// The same requests, not yet answered.
pub fn copied(heap: Global, calls: &[Call]) -> Result<Vec<Call>, AllocError>
    ensures { IfOk result (λ v. Copied calls.now v.items) }
{
    calls.iter().map(copy).try_collect(heap)
}
