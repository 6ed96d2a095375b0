// A trace closed and opened again.
use crate::failures::Failure;
use crate::files::Inputs;
use piles::Pile;
use std::alloc::Global;
use traces::{Header, Label, Opened, close, open};

// The most bytes of a file; a plain trace has fewer.
const LONGEST_FILE: usize = 32_784;

// A trace's file, and what it opens to, which is what was closed.
#[derive(Drop)]
pub(crate) struct Trip {
    pub file: Vec<u8>,
    pub header: Header,
    pub opened: Vec<u8>,
}

// Two piles under one key. Its bytes, and those of the copy that is made of it, are blank afterwards.
pub(crate) fn two_piles(description: &[u8], key: &mut Vec<u8>) -> Result<(Pile, Pile), Failure> {
    let mut copy = key.clone()?;
    let first = Pile::fitted(description, key.as_mut_slice());
    let second = Pile::fitted(description, copy.as_mut_slice());
    Ok((first?, second?))
}

fn closed(
    alloc: Global,
    pile: &mut Pile,
    label: Label,
    inputs: &Inputs,
) -> Result<Vec<u8>, Failure> {
    let (start, plain) = (inputs.start.as_slice(), inputs.plain.as_slice());
    let mut file = vec![in alloc; 0; LONGEST_FILE]?;
    let length = close(pile, label, start, plain, file.as_mut_slice())?;
    file.truncate(length);
    Ok(file)
}

fn opened(alloc: Global, pile: &mut Pile, file: &[u8]) -> Result<(Header, Vec<u8>), Failure> {
    let mut plain = vec![in alloc; 0; LONGEST_FILE]?;
    let Opened { header, length } = open(pile, file, plain.as_mut_slice())?;
    plain.truncate(length);
    Ok((header, plain))
}

impl Trip {
    // Closes under the first pile and opens under the second. That what is opened is what was closed is proved of both
    // calls, and looked at all the same before anything is written.
    pub fn made(
        alloc: Global,
        piles: (Pile, Pile),
        label: Label,
        inputs: &Inputs,
    ) -> Result<Trip, Failure> {
        let (mut first, mut second) = piles;
        let file = closed(alloc, &mut first, label, inputs)?;
        let (header, opened) = opened(alloc, &mut second, file.as_slice())?;
        if opened != inputs.plain {
            return Err(Failure::OtherPlain);
        }
        if Label::from(header) != label {
            return Err(Failure::OtherLabel);
        }
        Ok(Trip {
            file,
            header,
            opened,
        })
    }
}
