// The calls of a session.
ghost use Rattle.std.specs.Prelude.{◌≡◌, None};

use refusals::Refusal;

// What is asked of a bench: a pass of a run, a turn, a restart with a start. `R` holds the bytes; in definitions it is a
// list of them.
#[derive(Clone, Debug, PartialEq, Eq, Drop)]
pub enum Request<R> {
    Pass(R),
    Turn,
    Restart(R),
}

// A request with the bytes that it brings, which a pass rewrites, and the answers to it: of the bench that had it last,
// and of the one before.
#[derive(Drop)]
pub struct Call {
    pub request: Request<Vec<u8>>,
    pub answer: Option<Result<(), Refusal>>,
    pub earlier: Option<Result<(), Refusal>>,
}

impl Call {
    // Not yet answered.
    pub fn new(request: Request<Vec<u8>>) -> Call
        ensures request { result.request ≡ request }
        ensures answer { result.answer ≡ None }
        ensures earlier { result.earlier ≡ None }
    {
        Call {
            request,
            answer: None,
            earlier: None,
        }
    }
}
