// The number of XTEA's cycles, of two rounds each.
ghost use Rattle.std.specs.Prelude.{◌≡◌, ◌≤◌, MatchOption, nat_eq};
ghost use Rattle.std.specs.Cmp.Rules.{comparing};
ghost use Rattle.std.proofs.Common.{rules};

use std::marker::Model;

// A number from 1 to 32.
#[derive(Clone, Copy)]
pub struct Cycles {
    count: usize,
}

// A contract sees the number.
impl Model for Cycles {
    ghost use Rattle.std.specs.Prelude.{ℕ, ◌≤◌};

    ghost Value = { ℕ };

    ghost view = { λ c. c.count };

    ghost inverse = { λ n. record { count = n } };

    ghost invariant = { λ c. (1 ≤ c.count) × (c.count ≤ 32) };
}

impl Cycles {
    // None unless the count is 1 to 32.
    pub fn new(count: usize) -> Option<Cycles>
        ensures { MatchOption result (1 ≤ count → count ≤ 32 → ⊥) (λ c. c ≡ count) }
    {
        if (1..=32).contains(&count) {
            Some(Cycles { count })
        } else {
            None
        }
    }

    // The fewest. It and the usual number are functions, so that each has a contract that says which number it is.
    pub fn one() -> Cycles
        ensures { result ≡ 1 }
    {
        Cycles { count: 1 }
    }

    // The usual 32.
    pub fn full() -> Cycles
        ensures { result ≡ 32 }
    {
        Cycles { count: 32 }
    }

    pub fn count(&self) -> usize
        ensures value { result ≡ self.now }
        ensures some { 1 ≤ result }
        ensures few { result ≤ 32 }
    {
        self.count
    }
}

impl PartialEq for Cycles {
    ghost eq = { nat_eq };

    ghost laws = { Prim.search (comparing, rules) };

    fn eq(&self, other: &Cycles) -> bool {
        self.count == other.count
    }
}

impl Eq for Cycles {
    ghost laws = { Prim.search (comparing, rules) };
}
