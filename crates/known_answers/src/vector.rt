// A line with a known answer.
ghost use Rattle.std.specs.Prelude.{◌≡◌};
ghost use Rattle.std.specs.Option.{option_map};
ghost use Rattle.known_answers.specs.Cut.{fields_of};
ghost use Rattle.known_answers.specs.Vector.{parts, four_of, contents, reading_of};

use crate::hex::{block, key_bytes};
use crate::keys::KeyBytes;
use itertools::Itertools;

// The four fields of a line, as they are written.
#[derive(Clone, Copy)]
pub struct Fields<'a> {
    pub description: &'a [u8],
    pub key: &'a [u8],
    pub text: &'a [u8],
    pub sealed: &'a [u8],
}

// A known answer: under the key, the text's block is sealed to the other.
#[derive(Drop)]
pub struct Vector<'a> {
    pub description: &'a [u8],
    pub key: KeyBytes,
    pub text: u64,
    pub sealed: u64,
}

// The fields between the semicolons of a line, where there are exactly four, as the library collects them.
fn quartered(line: &[u8]) -> Option<(&[u8], &[u8], &[u8], &[u8])>
    ensures { option_map (λ f. (f.0.now, f.1.now, f.2.now, f.3.now)) result ≡ four_of (fields_of line.now) }
{
    line.split(|b| *b == b';').collect_tuple()
}

// The fields of a line that has exactly four.
pub fn four_fields(line: &[u8]) -> Option<Fields<'_>>
    ensures { option_map parts result ≡ four_of (fields_of line.now) }
{
    let (description, key, text, sealed) = quartered(line)?;
    Some(Fields {
        description,
        key,
        text,
        sealed,
    })
}

// The known answer that a line states; none where it is not of the form that a line has.
pub fn read(line: &[u8]) -> Option<Vector<'_>>
    ensures { option_map contents result ≡ reading_of line.now }
{
    let written = four_fields(line)?;
    Some(Vector {
        description: written.description,
        key: key_bytes(written.key)?,
        text: block(written.text)?,
        sealed: block(written.sealed)?,
    })
}
