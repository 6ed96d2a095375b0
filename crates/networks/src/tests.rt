// A network over 16-bit words, and one of no rounds.
ghost use Rattle.std.specs.Prelude.{◌+◌, ◌%◌, ◌^◌};
ghost use Rattle.std.proofs.Common.{rules};

use crate::feistel::Feistel;
use crate::functions::RoundFunction;
use crate::pairs::Halves;
use crate::schedules::Schedule;
use groups::Sum16;

#[derive(Clone, Copy)]
struct Added;

impl RoundFunction for Added {
    type Half = u16;

    ghost value = { λ _ half word. (half + word) % 2 ^ 16 };

    ghost within = { Prim.search rules };

    fn mix(&self, half: u16, word: u64) -> u16 {
        half.wrapping_add((word % 0x1_0000) as u16)
    }
}

fn network(rounds: usize) -> Feistel<Sum16, Added, 64> {
    let mut words = [0; 64];
    words[0] = 1;
    words[1] = 0xFFFF;
    Feistel::new(Added, Schedule::first(rounds, words).unwrap())
}

#[test]
fn no_rounds_swap(rt: HostRuntime) {
    let swapped = network(0).run(Halves { left: 1, right: 2 });
    assert_eq!(rt; swapped, Halves { left: 2, right: 1 });
}

// (3, 5) becomes (5, 3 + 6), then (9, 5 + 8), and the swap makes it (13, 9).
#[test]
fn two_rounds_and_both_ways_back(rt: HostRuntime) {
    let mut two = network(2);
    let made = two.run(Halves { left: 3, right: 5 });
    assert_eq!(rt; made, Halves { left: 13, right: 9 });
    let back = two.ways_back(made);
    let brought = Halves { left: 3, right: 5 };
    assert_eq!(rt; back.undone, brought);
    assert_eq!(rt; back.turned, brought);
}
