// The fields of a line: numbers and bytes.
use crate::faults::Fault;
use std::alloc::{AllocError, Global};
use transcripts::bytes;

// The most bytes that a line may ask for.
const MOST: u16 = 40_000;

// A number in decimal digits, and nothing else.
pub(crate) fn decimal(field: &[u8]) -> Result<u32, Fault> {
    if !field.iter().all(|c| c.is_ascii_digit()) {
        return Err(Fault::Unreadable);
    }
    let text = std::str::from_utf8(field).map_err(|_| Fault::Unreadable)?;
    text.parse().map_err(|_| Fault::Unreadable)
}

// A number of bytes.
pub(crate) fn count(field: &[u8]) -> Result<u16, Fault> {
    let count = u16::try_from(decimal(field)?).map_err(|_| Fault::Unreadable)?;
    if count > MOST {
        return Err(Fault::Unreadable);
    }
    Ok(count)
}

// Bytes in hexadecimal.
pub(crate) fn hexadecimal(alloc: Global, field: &[u8]) -> Result<Vec<u8>, Fault> {
    bytes(alloc, field)?.ok_or(Fault::Unreadable)
}

fn generated_byte(at: u16) -> u8 {
    let at = u32::from(at);
    ((7 * at + at / 256 + 3) % 256) as u8
}

// As many bytes as are asked for, which differ from block to block.
fn generated(alloc: Global, count: u16) -> Result<Vec<u8>, AllocError> {
    (0..count).map(generated_byte).collect(alloc)
}

// Bytes in hexadecimal, or how many are to be generated.
pub(crate) fn contents(alloc: Global, field: &[u8]) -> Result<Vec<u8>, Fault> {
    match field {
        [b'*', digits @ ..] => Ok(generated(alloc, count(digits)?)?),
        _ => hexadecimal(alloc, field),
    }
}
