// Which way a bench works.
ghost use Rattle.std.specs.Prelude.{◌≡◌, Some};
ghost use Rattle.chaining.specs.Benches.{other, direction_text};
ghost use Rattle.chaining.specs.Runs.{sealed_of};

use std::fmt;

// Sealing encrypts, opening decrypts.
#[derive(Clone, Copy, Debug, PartialEq, Eq)]
pub enum Direction {
    Sealing,
    Opening,
}

impl Direction {
    // The other one.
    pub fn other(self) -> Direction
        ensures { result ≡ other self }
    {
        match self {
            Direction::Sealing => Direction::Opening,
            Direction::Opening => Direction::Sealing,
        }
    }

    // The chain block is the sealed one of the two: what comes out while sealing, what was brought while opening.
    pub(crate) fn sealed_of(self, brought: u64, left: u64) -> u64
        ensures { result ≡ sealed_of self brought left }
    {
        match self {
            Direction::Sealing => left,
            Direction::Opening => brought,
        }
    }
}

impl fmt::Display for Direction {
    ghost output = { λ direction. Some (direction_text direction) };

    fn fmt<W: fmt::Write>(&self, f: &mut fmt::Formatter<W>) -> fmt::Result {
        f.write_str(match self {
            Direction::Sealing => "sealing",
            Direction::Opening => "opening",
        })
    }
}
