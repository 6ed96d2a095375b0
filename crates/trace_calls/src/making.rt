// Calls made, each on piles and an output of its own.
use crate::calls::{Call, Supply, Trace};
use crate::faults::Fault;
use crate::showing::shown;
use piles::Pile;
use refusals::{Notice, Refusal};
use std::alloc::{AllocError, Global};
use traces::{Header, Label, Opened, close, open};

// Each byte of an output before a call.
const UNTOUCHED: u8 = 0xAA;

// The bytes that no file is longer than.
const LONGEST_FILE: u16 = 32_784;

fn output(alloc: Global, room: u16) -> Result<Vec<u8>, AllocError> {
    vec![in alloc; UNTOUCHED; usize::from(room)]
}

// What became of an output from a place on, which a call was to keep.
fn kept_from(output: &[u8], place: usize) -> &'static str {
    if output.iter().skip(place).all(|b| *b == UNTOUCHED) {
        "kept"
    } else {
        "changed"
    }
}

fn same(got: &[u8], wanted: &[u8]) -> &'static str {
    if got == wanted { "same" } else { "other" }
}

fn refused(refusal: Refusal, output: &[u8]) -> Fault {
    Fault::Refused(Notice::from(refusal), kept_from(output, 0))
}

// What a call wrote at the start of an output, how long that is by its answer, and what became of the rest.
#[derive(Drop)]
struct Written {
    bytes: Vec<u8>,
    length: usize,
    rest: &'static str,
}

impl Written {
    fn new(mut output: Vec<u8>, length: usize) -> Written {
        let rest = kept_from(output.as_slice(), length);
        output.truncate(length);
        Written {
            bytes: output,
            length,
            rest,
        }
    }
}

fn closed(alloc: Global, pile: &mut Pile, trace: &Trace, room: u16) -> Result<Written, Fault> {
    let mut output = output(alloc, room)?;
    let Trace {
        label,
        start,
        plain,
    } = trace;
    match close(
        pile,
        *label,
        start.as_slice(),
        plain.as_slice(),
        output.as_mut_slice(),
    ) {
        Ok(length) => Ok(Written::new(output, length)),
        Err(refusal) => Err(refused(refusal, output.as_slice())),
    }
}

fn opened(
    alloc: Global,
    pile: &mut Pile,
    file: &[u8],
    room: u16,
) -> Result<(Header, Written), Fault> {
    let mut output = output(alloc, room)?;
    match open(pile, file, output.as_mut_slice()) {
        Ok(Opened { header, length }) => Ok((header, Written::new(output, length))),
        Err(refusal) => Err(refused(refusal, output.as_slice())),
    }
}

fn close_trace(
    alloc: Global,
    supply: &Supply<'_>,
    trace: &Trace,
    room: u16,
) -> Result<String, Fault> {
    let Written {
        bytes,
        length,
        rest,
    } = closed(alloc, &mut supply.pile()?, trace, room)?;
    let file = shown(alloc, bytes.as_slice())?;
    Ok(format!(in alloc; "closed {length} {file}, rest {rest}")?)
}

fn open_file(alloc: Global, supply: &Supply<'_>, file: &[u8], room: u16) -> Result<String, Fault> {
    let (header, written) = opened(alloc, &mut supply.pile()?, file, room)?;
    let Header {
        axis,
        serial,
        number,
    } = header;
    let Written {
        bytes,
        length,
        rest,
    } = written;
    let plain = shown(alloc, bytes.as_slice())?;
    Ok(format!(in alloc; "opened {axis} {serial} {number} {length} {plain}, rest {rest}")?)
}

// What a file was opened to, to be closed again with the start that stands in the file.
fn again(alloc: Global, header: Header, file: &[u8], plain: &[u8]) -> Result<Trace, AllocError> {
    let start = file.get(8..16).unwrap_or(&[]);
    Ok(Trace {
        label: Label::from(header),
        start: Vec::from_slice(alloc, start)?,
        plain: Vec::from_slice(alloc, plain)?,
    })
}

// Closes a trace, opens the file under a second pile, and closes what was opened under the first.
fn trip(alloc: Global, supply: &Supply<'_>, trace: &Trace) -> Result<String, Fault> {
    let (mut first, mut second) = (supply.pile()?, supply.pile()?);
    let there = closed(alloc, &mut first, trace, LONGEST_FILE)?;
    let file = there.bytes.as_slice();
    let (header, back) = opened(alloc, &mut second, file, LONGEST_FILE)?;
    let plain = back.bytes.as_slice();
    let trace_again = again(alloc, header, file, plain)?;
    let file_again = closed(alloc, &mut first, &trace_again, LONGEST_FILE)?;
    let Header {
        axis,
        serial,
        number,
    } = header;
    let (closed, opened) = (there.length, back.length);
    let same_plain = same(plain, trace.plain.as_slice());
    let same_file = same(file_again.bytes.as_slice(), file);
    let file = shown(alloc, file)?;
    Ok(format!(in alloc;
        "closed {closed} {file}, opened {axis} {serial} {number} {opened}, {same_plain} plain, {same_file} file"
    )?)
}

pub(crate) fn make(alloc: Global, call: &Call<'_>) -> Result<String, Fault> {
    match call {
        Call::Close(supply, trace, room) => close_trace(alloc, supply, trace, *room),
        Call::Open(supply, file, room) => open_file(alloc, supply, file.as_slice(), *room),
        Call::Trip(supply, trace) => trip(alloc, supply, trace),
    }
}
