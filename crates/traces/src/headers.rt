// The first eight bytes of a trace file.
ghost use Rattle.std.specs.Prelude.{◌≡◌, Some};
ghost use Rattle.traces.specs.Headers.{axis_number, axis_text, header_of, label_of, labelled};

use refusals::Refusal;
use std::fmt;

// Which of a mount's axes a trace was taken on.
#[derive(Clone, Copy, Debug, PartialEq, Eq)]
pub enum Axis {
    RightAscension,
    Declination,
}

// What a trace is to be labelled with: numbers as they are brought, which `close` judges.
#[derive(Clone, Copy, Debug, PartialEq, Eq)]
pub struct Label {
    pub axis: u32,
    pub serial: u32,
    pub number: u32,
}

// What a trace file is labelled with.
#[derive(Clone, Copy, Debug, PartialEq, Eq)]
pub struct Header {
    pub axis: Axis,
    pub serial: u32,
    pub number: u32,
}

impl Axis {
    // 0 or 1, as it stands in a file.
    pub fn number(self) -> u32
        ensures { result ≡ axis_number self }
    {
        match self {
            Axis::RightAscension => 0,
            Axis::Declination => 1,
        }
    }
}

impl fmt::Display for Axis {
    ghost output = { λ axis. Some (axis_text axis) };

    fn fmt<W: fmt::Write>(&self, f: &mut fmt::Formatter<W>) -> fmt::Result {
        f.write_str(match self {
            Axis::RightAscension => "right ascension",
            Axis::Declination => "declination",
        })
    }
}

impl From<Header> for Label {
    ghost from_gives = { λ header label. label ≡ label_of header };

    fn from(header: Header) -> Label {
        Label {
            axis: header.axis.number(),
            serial: header.serial,
            number: header.number,
        }
    }
}

// The header of a label, as a number.
pub(crate) fn label_word(label: Label) -> Result<u64, Refusal>
    ensures { result ≡ labelled label }
{
    let Label {
        axis,
        serial,
        number,
    } = label;
    if axis > 1 || serial >= 1 << 24 {
        return Err(Refusal::FieldTooLarge);
    }
    let form_and_axis = (1 << 1) + u64::from(axis);
    let serial_after = (form_and_axis << 27) + u64::from(serial);
    Ok((serial_after << 32) + u64::from(number))
}

// The header that a number is.
pub(crate) fn read_header(word: u64) -> Result<Header, Refusal>
    ensures { result ≡ header_of word }
{
    if word >> 60 != 1 || (word >> 56) % 8 != 0 {
        return Err(Refusal::FileForm);
    }
    Ok(Header {
        axis: if (word >> 59) % 2 == 0 {
            Axis::RightAscension
        } else {
            Axis::Declination
        },
        serial: ((word >> 32) % (1 << 24)) as u32,
        number: (word % (1 << 32)) as u32,
    })
}
