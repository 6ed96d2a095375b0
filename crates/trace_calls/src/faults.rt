// Why a line does not come to what it asks for.
use refusals::Notice;
use std::alloc::AllocError;
use thiserror::Error;

#[derive(Debug, Drop, Error)]
pub(crate) enum Fault {
    #[error("unreadable")]
    Unreadable,
    // The description and the key fit no pile.
    #[error("no pile: {0}")]
    NoPile(Notice),
    // The call was refused; what became of the output.
    #[error("refused {0}, output {1}")]
    Refused(Notice, &'static str),
    #[error(transparent)]
    Memory(#[from(alloc)] AllocError),
}
