// The stages that a pile may have: their names, counts and keys.
ghost use Rattle.std.specs.Prelude.{◌≡◌, IfSome, Some};
ghost use Rattle.plans.specs.Stages.{CountFits, count_of, counted, key_length, stage_named, stage_text};

use idea::Rounds;
use std::fmt;
use xtea::Cycles;

// A cipher without its key. A vector of a fixed capacity asks for a default; which it is means nothing.
#[derive(Clone, Copy, Default, PartialEq, Eq)]
pub enum Stage {
    #[default]
    Des,
    // Triple DES with two keys.
    Ede2,
    // Triple DES with three keys.
    Ede3,
    Idea(Rounds),
    Xtea(Cycles),
    // Both halves of a block xored with those of the key.
    Wxor,
    // Both halves of a block added to those of the key, modulo 2^32.
    Wadd,
}

// The number that one or two digits write, the first of them not 0.
fn count(digits: &[u8]) -> Option<usize>
    ensures { result ≡ count_of digits.now }
{
    match digits {
        [ones @ b'1'..=b'9'] => Some(usize::from(*ones - b'0')),
        [tens @ b'1'..=b'9', ones @ b'0'..=b'9'] => Some(
            usize::from(*tens - b'0') * 10 + usize::from(*ones - b'0'),
        ),
        _ => None,
    }
}

impl Stage {
    // The stage that a name alone names.
    pub fn named(name: &[u8]) -> Option<Stage>
        ensures value { result ≡ stage_named name.now }
        ensures lawful { IfSome result CountFits }
    {
        match name {
            [b'd', b'e', b's'] => Some(Stage::Des),
            [b'e', b'd', b'e', b'2'] => Some(Stage::Ede2),
            [b'e', b'd', b'e', b'3'] => Some(Stage::Ede3),
            [b'i', b'd', b'e', b'a'] => Some(Stage::Idea(Rounds::full())),
            [b'x', b't', b'e', b'a'] => Some(Stage::Xtea(Cycles::full())),
            [b'w', b'x', b'o', b'r'] => Some(Stage::Wxor),
            [b'w', b'a', b'd', b'd'] => Some(Stage::Wadd),
            _ => None,
        }
    }

    // The stage with the count that the digits write, where they write one that it takes.
    pub fn counted(self, digits: &[u8]) -> Option<Stage>
        ensures value { result ≡ counted self (count_of digits.now) }
        ensures lawful { IfSome result CountFits }
    {
        match self {
            Stage::Idea(_) => Rounds::new(count(digits)?).map(Stage::Idea),
            Stage::Xtea(_) => Cycles::new(count(digits)?).map(Stage::Xtea),
            Stage::Des | Stage::Ede2 | Stage::Ede3 | Stage::Wxor | Stage::Wadd => None,
        }
    }

    // How many bytes its key has.
    pub fn key_length(self) -> usize
        ensures { result ≡ key_length self }
    {
        match self {
            Stage::Des | Stage::Wxor | Stage::Wadd => 8,
            Stage::Ede2 | Stage::Idea(_) | Stage::Xtea(_) => 16,
            Stage::Ede3 => 24,
        }
    }
}

// A plain name or a name with its count, as a description has it.
impl fmt::Display for Stage {
    ghost output = { λ stage. Some (stage_text stage) };

    fn fmt<W: fmt::Write>(&self, f: &mut fmt::Formatter<W>) -> fmt::Result {
        match self {
            Stage::Des => f.write_str("des"),
            Stage::Ede2 => f.write_str("ede2"),
            Stage::Ede3 => f.write_str("ede3"),
            Stage::Idea(rounds) => {
                let count = rounds.count();
                write!(f, "idea:{count}")
            }
            Stage::Xtea(cycles) => {
                let count = cycles.count();
                write!(f, "xtea:{count}")
            }
            Stage::Wxor => f.write_str("wxor"),
            Stage::Wadd => f.write_str("wadd"),
        }
    }
}
