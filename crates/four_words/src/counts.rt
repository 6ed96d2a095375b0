// The number of rounds of a four-word network.
ghost use Rattle.std.specs.Prelude.{◌≡◌, ◌≤◌, MatchOption, nat_eq};
ghost use Rattle.std.specs.Cmp.Rules.{comparing};
ghost use Rattle.std.proofs.Common.{rules};

use std::marker::Model;

// A number from 1 to 8.
#[derive(Clone, Copy)]
pub struct Rounds {
    count: usize,
}

// A contract sees the number.
impl Model for Rounds {
    ghost use Rattle.std.specs.Prelude.{ℕ, ◌≤◌};

    ghost Value = { ℕ };

    ghost view = { λ r. r.count };

    ghost inverse = { λ n. record { count = n } };

    ghost invariant = { λ r. (1 ≤ r.count) × (r.count ≤ 8) };
}

impl Rounds {
    // None unless the count is 1 to 8.
    pub fn new(count: usize) -> Option<Rounds>
        ensures { MatchOption result (1 ≤ count → count ≤ 8 → ⊥) (λ r. r ≡ count) }
    {
        if (1..=8).contains(&count) {
            Some(Rounds { count })
        } else {
            None
        }
    }

    // The most.
    pub fn full() -> Rounds
        ensures { result ≡ 8 }
    {
        Rounds { count: 8 }
    }

    pub fn count(&self) -> usize
        ensures value { result ≡ self.now }
        ensures some { 1 ≤ result }
        ensures few { result ≤ 8 }
    {
        self.count
    }
}

impl PartialEq for Rounds {
    ghost eq = { nat_eq };

    ghost laws = { Prim.search (comparing, rules) };

    fn eq(&self, other: &Rounds) -> bool {
        self.count == other.count
    }
}

impl Eq for Rounds {
    ghost laws = { Prim.search (comparing, rules) };
}
