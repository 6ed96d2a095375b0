// What a caller is told.
ghost use Rattle.std.specs.Prelude.{◌≡◌};
ghost use Rattle.jinthoral.specs.Replies.{opened_label, opened_reply_of, reply_of};

use refusals::{Notice, Refusal};
use traces::{Label, Opened};

// The number and the place of a refusal, or 0 and 0; and how many bytes of a run or an output were written.
#[repr(C)]
#[derive(Clone, Copy, Debug, PartialEq, Eq)]
pub struct Reply {
    pub refusal: u64,
    pub place: usize,
    pub length: usize,
}

// The same of a file that was opened, and what it is labelled with, or zeros.
#[repr(C)]
#[derive(Clone, Copy, Debug, PartialEq, Eq)]
pub struct OpenedReply {
    pub reply: Reply,
    pub axis: u32,
    pub serial: u32,
    pub number: u32,
}

impl From<Result<usize, Refusal>> for Reply {
    ghost from_gives = { λ outcome reply. reply ≡ reply_of outcome };

    fn from(outcome: Result<usize, Refusal>) -> Reply {
        match outcome {
            Ok(length) => Reply {
                refusal: 0,
                place: 0,
                length,
            },
            Err(refusal) => {
                let Notice { number, place } = Notice::from(refusal);
                Reply {
                    refusal: number,
                    place,
                    length: 0,
                }
            }
        }
    }
}

// What a file that was opened is labelled with, or zeros.
fn label(outcome: Result<Opened, Refusal>) -> Label
    ensures { result ≡ opened_label outcome }
{
    match outcome {
        Ok(opened) => Label::from(opened.header),
        Err(_) => Label {
            axis: 0,
            serial: 0,
            number: 0,
        },
    }
}

impl From<Result<Opened, Refusal>> for OpenedReply {
    ghost from_gives = { λ outcome reply. reply ≡ opened_reply_of outcome };

    fn from(outcome: Result<Opened, Refusal>) -> OpenedReply {
        let Label {
            axis,
            serial,
            number,
        } = label(outcome);
        OpenedReply {
            reply: Reply::from(outcome.map(|opened| opened.length)),
            axis,
            serial,
            number,
        }
    }
}
