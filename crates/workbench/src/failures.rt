// Why a run ends early.
use crate::meanings::meaning;
use refusals::{Notice, Refusal};
use std::alloc::AllocError;
use std::io;
use thiserror::Error;

const USAGE: &str = "usage: workbench AXIS SERIAL NUMBER, three decimal numbers, \
    in a folder with pile.txt, key.bin, start.bin and plain.bin";

#[derive(Debug, Drop, Error)]
pub(crate) enum Failure {
    #[error("{USAGE}")]
    Usage,
    #[error("{name} is to be a decimal number up to 4294967295, and not '{word}'\n{USAGE}")]
    NoNumber { name: &'static str, word: String },
    #[error("cannot read {0}: {1}")]
    Unread(&'static str, io::Error),
    #[error("cannot write {0}: {1}")]
    Unwritten(&'static str, io::Error),
    #[error("refused {notice}\n{meaning}", notice = Notice::from(*.0), meaning = meaning(*.0))]
    Refused(#[from] Refusal),
    #[error("opened again: other bytes than those of plain.bin.")]
    OtherPlain,
    #[error("opened again: another label than the one that was brought.")]
    OtherLabel,
    #[error("cannot print: {0}")]
    Unprinted(#[from] io::Error),
    #[error(transparent)]
    Memory(#[from(alloc)] AllocError),
}

impl Failure {
    // What the trace came to goes to standard output; what is wrong around it, to standard error. Nothing is left to do
    // where that fails.
    pub fn print(&self, rt: &(impl Print + Eprint)) {
        let _ = match self {
            Failure::Refused(_) | Failure::OtherPlain | Failure::OtherLabel => {
                println!(rt; "{self} Nothing is written.")
            }
            _ => eprintln!(rt; "{self}"),
        };
    }
}
