// What a line asks for. Its fields stand between semicolons:
// `close;DESCRIPTION;KEY;AXIS;SERIAL;NUMBER;START;PLAIN;ROOM`, `open;DESCRIPTION;KEY;FILE;ROOM` or
// `trip;DESCRIPTION;KEY;AXIS;SERIAL;NUMBER;START;PLAIN`.
use crate::faults::Fault;
use crate::fields::{contents, count, decimal, hexadecimal};
use piles::Pile;
use refusals::Notice;
use std::alloc::Global;
use traces::Label;

// What a pile is fitted by.
#[derive(Drop)]
pub(crate) struct Supply<'a> {
    pub description: &'a [u8],
    pub key: Vec<u8>,
}

// What is to be closed.
#[derive(Drop)]
pub(crate) struct Trace {
    pub label: Label,
    pub start: Vec<u8>,
    pub plain: Vec<u8>,
}

#[derive(Drop)]
pub(crate) enum Call<'a> {
    // Closes a trace, into an output of some room.
    Close(Supply<'a>, Trace, u16),
    // Opens a file, into an output of some room.
    Open(Supply<'a>, Vec<u8>, u16),
    // Closes a trace, opens it, and closes what was opened.
    Trip(Supply<'a>, Trace),
}

impl<'a> Supply<'a> {
    fn read(alloc: Global, description: &'a [u8], key: &[u8]) -> Result<Supply<'a>, Fault> {
        let key = hexadecimal(alloc, key)?;
        Ok(Supply { description, key })
    }

    // A new pile, which blanks a copy of the key.
    pub fn pile(&self) -> Result<Pile, Fault> {
        let mut key = self.key.clone()?;
        Pile::fitted(self.description, key.as_mut_slice()).map_err(|refusal| Fault::NoPile(
            Notice::from(refusal),
        ))
    }
}

impl Trace {
    // From the fields of the axis, the serial number, the trace's number, the start and the plain trace.
    fn read(alloc: Global, fields: &[&[u8]]) -> Result<Trace, Fault> {
        let [axis, serial, number, start, plain] = fields else {
            return Err(Fault::Unreadable);
        };
        let label = Label {
            axis: decimal(axis)?,
            serial: decimal(serial)?,
            number: decimal(number)?,
        };
        let start = hexadecimal(alloc, start)?;
        let plain = contents(alloc, plain)?;
        Ok(Trace {
            label,
            start,
            plain,
        })
    }
}

pub(crate) fn read<'a>(alloc: Global, line: &'a [u8]) -> Result<Call<'a>, Fault> {
    let fields: Vec<&[u8]> = line.split(|b| *b == b';').collect(alloc)?;
    match fields.as_slice() {
        [b"close", description, key, trace @ .., room] => {
            let supply = Supply::read(alloc, description, key)?;
            Ok(Call::Close(supply, Trace::read(alloc, trace)?, count(room)?))
        }
        [b"open", description, key, file, room] => {
            let supply = Supply::read(alloc, description, key)?;
            Ok(Call::Open(supply, contents(alloc, file)?, count(room)?))
        }
        [b"trip", description, key, trace @ ..] => {
            let supply = Supply::read(alloc, description, key)?;
            Ok(Call::Trip(supply, Trace::read(alloc, trace)?))
        }
        _ => Err(Fault::Unreadable),
    }
}
