// A trace closed into a file.
ghost use Rattle.std.specs.Prelude.{◌≡◌, ◌≤◌, ◌++◌, length};
ghost use Rattle.std.specs.Int.{to_be_bytes, w64};
ghost use Rattle.traces.specs.Closing.{Closes, within};
ghost use Rattle.traces.specs.Files.{Holds, file_length, judged_trace};
ghost use Rattle.traces.specs.Laws.{MakesAgain};

use crate::headers::{Label, label_word};
use crate::padding::{pad, padding};
use crate::runs::seal_run;
use ciphers::Cipher;
use piles::Pile;
use refusals::Refusal;

// The most bytes of a plain.
const LONGEST: usize = 32_767;

// The header of a trace that may be closed.
fn judge_trace(label: Label, start: &[u8], plain: &[u8]) -> Result<u64, Refusal>
    ensures { result ≡ judged_trace label start.now plain.now }
{
    if start.len() != 8 {
        return Err(Refusal::StartLength);
    }
    if plain.len() > LONGEST {
        return Err(Refusal::PlainTooLong);
    }
    label_word(label)
}

// The length of the file of a plain.
fn file_length(plain: usize) -> usize
    requires { plain ≤ 32767 }
    ensures { result ≡ file_length plain }
{
    16 + plain + padding(plain)
}

// Writes a header and a start over the whole of some bytes.
fn write_head(header: u64, start: &[u8; 8], head: &mut [u8])
    requires { length head.old ≡ 16 }
    ensures { head.new ≡ to_be_bytes w64 header ++ start.now }
{
    let (front, back) = head.split_at_mut(8);
    front.copy_from_slice(&header.to_be_bytes());
    back.copy_from_slice(start);
}

// Writes a file over the whole of some bytes.
fn write_file(pile: &mut Pile, header: u64, start: &[u8; 8], plain: &[u8], file: &mut [u8])
    requires few { length plain.now ≤ 32767 }
    requires room { length file.old ≡ file_length (length plain.now) }
    ensures file { Holds (⟦<Pile as Cipher>⟧.map pile.old) header start.now plain.now file.new }
    ensures map { ⟦<Pile as Cipher>⟧.map pile.new ≡ ⟦<Pile as Cipher>⟧.map pile.old }
{
    let (head, body) = file.split_at_mut(16);
    write_head(header, start, head);
    pad(plain, body);
    seal_run(pile, u64::from_be_bytes(*start), body);
}

// So many bytes, where there is room for them.
pub(crate) fn within(room: usize, length: usize) -> Result<usize, Refusal>
    ensures { result ≡ within room length }
{
    if room < length {
        Err(Refusal::OutputTooShort)
    } else {
        Ok(length)
    }
}

// Closes a trace.
fn close_file(
    pile: &mut Pile,
    label: Label,
    start: &[u8],
    plain: &[u8],
    output: &mut [u8],
) -> Result<usize, Refusal>
    ensures closes { Closes (⟦<Pile as Cipher>⟧.map pile.old) label start.now plain.now output.old result output.new }
    ensures map { ⟦<Pile as Cipher>⟧.map pile.new ≡ ⟦<Pile as Cipher>⟧.map pile.old }
{
    let header = judge_trace(label, start, plain)?;
    let length = within(output.len(), file_length(plain.len()))?;
    let start = start.as_array().unwrap();
    write_file(pile, header, start, plain, &mut output[..length]);
    Ok(length)
}

// Closes a trace: writes its file at the start of the output, and answers the file's length.
pub fn close(
    pile: &mut Pile,
    label: Label,
    start: &[u8],
    plain: &[u8],
    output: &mut [u8],
) -> Result<usize, Refusal>
    ensures closes { Closes (⟦<Pile as Cipher>⟧.map pile.old) label start.now plain.now output.old result output.new }
    ensures map { ⟦<Pile as Cipher>⟧.map pile.new ≡ ⟦<Pile as Cipher>⟧.map pile.old }
    ensures again { MakesAgain (⟦<Pile as Cipher>⟧.map pile.old) label start.now plain.now output.old result output.new }
{
    close_file(pile, label, start, plain, output)
}
