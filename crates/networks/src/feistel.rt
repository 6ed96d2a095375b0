// Feistel networks over any group and round function.
ghost use Rattle.std.specs.Prelude.{◌≡◌, ◌≤◌, false, length, if◌then◌else◌};
ghost use Rattle.networks.specs.Fours.{each};
ghost use Rattle.networks.specs.Halves.{Words};
ghost use Rattle.networks.specs.Inverses.{Inverses};
ghost use Rattle.networks.specs.Rounds.{applied, round, rounds, unround, unrounds, ran, unran, turned};
ghost use Rattle.networks.specs.internal.Abreast.{rounds_abreast};

use crate::fours::Four;
use crate::functions::RoundFunction;
use crate::pairs::Halves;
use crate::schedules::Schedule;
use crate::ways::WaysBack;
use groups::Group;
use std::marker::PhantomData;

// A Feistel network with a final swap: a round function, its round words (round keys), and whether its values are
// inverted in the group, as they are once the network is turned. A turn is in place, so `inverted` is a value and no type.
// It has no model: a model's value can hold no function, and a network's does.
#[derive(Drop)]
pub struct Feistel<G: Group, F: RoundFunction<Half = G::Word>, const N: usize> {
    function: F,
    schedule: Schedule<F, N>,
    inverted: bool,
    group: PhantomData<G>,
    // said here too, since the invariant of a schedule is not told to whoever borrows a network
    ghost few: { length schedule ≤ 64 },
}

impl<G: Group, F: RoundFunction<Half = G::Word>, const N: usize> Feistel<G, F, N> {
    ghost use Rattle.networks.specs.Networks.{network};

    pub fn new(function: F, schedule: Schedule<F, N>) -> Self
        ensures function { result.function ≡ function }
        ensures words { result.schedule ≡ schedule }
        ensures plain { result.inverted ≡ false }
    {
        Feistel {
            function,
            schedule,
            inverted: false,
            group: PhantomData,
        }
    }

    // A value of the round function, or its inverse in the group where the network is turned. Whether it is turned is a
    // parameter here and below, so that it is asked once for a block and not once a round.
    #[inline(always)]
    fn faced(inverted: bool, value: G::Word) -> G::Word
        ensures { result ≡ (if inverted then G.Group.inverted value else value) }
    {
        if inverted { G::inverse(value) } else { value }
    }

    #[inline(always)]
    fn applied(&self, inverted: bool, half: G::Word, kept: u64) -> G::Word
        requires { inverted ≡ self.now.inverted }
        ensures { result ≡ applied (network G.Group F.RoundFunction self.now) half (F.RoundFunction.word_of kept) }
    {
        Self::faced(inverted, self.function.mix(half, kept))
    }

    #[inline(always)]
    fn applied_beside(&self, inverted: bool, half: G::Word, kept: u64) -> G::Word
        requires { inverted ≡ self.now.inverted }
        ensures { result ≡ applied (network G.Group F.RoundFunction self.now) half (F.RoundFunction.word_of kept) }
    {
        Self::faced(inverted, self.function.mix_beside(half, kept))
    }

    #[inline(always)]
    fn round(&self, inverted: bool, kept: u64, halves: Halves<G::Word>) -> Halves<G::Word>
        requires { inverted ≡ self.now.inverted }
        ensures { result ≡ round (network G.Group F.RoundFunction self.now) (F.RoundFunction.word_of kept) halves }
    {
        Halves {
            left: halves.right,
            right: G::join(halves.left, self.applied(inverted, halves.right, kept)),
        }
    }

    // A round of one of several pairs of halves.
    #[inline(always)]
    fn round_beside(&self, inverted: bool, kept: u64, halves: Halves<G::Word>) -> Halves<G::Word>
        requires { inverted ≡ self.now.inverted }
        ensures { result ≡ round (network G.Group F.RoundFunction self.now) (F.RoundFunction.word_of kept) halves }
    {
        Halves {
            left: halves.right,
            right: G::join(
                halves.left,
                self.applied_beside(inverted, halves.right, kept),
            ),
        }
    }

    fn unround(&self, kept: u64, halves: Halves<G::Word>) -> Halves<G::Word>
        ensures { result ≡ unround (network G.Group F.RoundFunction self.now) (F.RoundFunction.word_of kept) halves }
    {
        let value = self.applied(self.inverted, halves.left, kept);
        Halves {
            left: G::join(halves.right, G::inverse(value)),
            right: halves.left,
        }
    }

    // The rounds in order, two at a time: in two of them each half comes back to its own place.
    #[inline(always)]
    fn rounds_as(&self, inverted: bool, halves: Halves<G::Word>) -> Halves<G::Word>
        requires { inverted ≡ self.now.inverted }
        ensures { result ≡ rounds (network G.Group F.RoundFunction self.now) self.now.schedule halves }
    {
        let mut state = halves;
        let mut left = self.schedule.kept();
        while let [first, second, rest @ ..] = left {
            state = self.round(inverted, *second, self.round(inverted, *first, state));
            left = rest;
        }
        match left {
            [last, ..] => self.round(inverted, *last, state),
            [] => state,
        }
    }

    fn rounds(&self, halves: Halves<G::Word>) -> Halves<G::Word>
        ensures { result ≡ rounds (network G.Group F.RoundFunction self.now) self.now.schedule halves }
    {
        if self.inverted {
            self.rounds_as(true, halves)
        } else {
            self.rounds_as(false, halves)
        }
    }

    #[inline(always)]
    fn round_four(
        &self,
        inverted: bool,
        kept: u64,
        halves: Four<Halves<G::Word>>,
    ) -> Four<Halves<G::Word>>
        requires { inverted ≡ self.now.inverted }
        ensures { result ≡ each (round (network G.Group F.RoundFunction self.now) (F.RoundFunction.word_of kept)) halves }
    {
        Four {
            first: self.round_beside(inverted, kept, halves.first),
            second: self.round_beside(inverted, kept, halves.second),
            third: self.round_beside(inverted, kept, halves.third),
            fourth: self.round_beside(inverted, kept, halves.fourth),
        }
    }

    // The rounds of four pairs of halves, a round of each of them before the next round.
    #[inline(always)]
    fn rounds_abreast_as(
        &self,
        inverted: bool,
        halves: Four<Halves<G::Word>>,
    ) -> Four<Halves<G::Word>>
        requires { inverted ≡ self.now.inverted }
        ensures { result ≡ rounds_abreast (network G.Group F.RoundFunction self.now) self.now.schedule halves }
    {
        let mut state = halves;
        let mut left = self.schedule.kept();
        while let [first, second, rest @ ..] = left {
            state = self.round_four(inverted, *second, self.round_four(inverted, *first, state));
            left = rest;
        }
        match left {
            [last, ..] => self.round_four(inverted, *last, state),
            [] => state,
        }
    }

    fn rounds_abreast(&self, halves: Four<Halves<G::Word>>) -> Four<Halves<G::Word>>
        ensures { result ≡ rounds_abreast (network G.Group F.RoundFunction self.now) self.now.schedule halves }
    {
        if self.inverted {
            self.rounds_abreast_as(true, halves)
        } else {
            self.rounds_abreast_as(false, halves)
        }
    }

    fn rounds_four(&self, halves: Four<Halves<G::Word>>) -> Four<Halves<G::Word>>
        ensures { result ≡ each (rounds (network G.Group F.RoundFunction self.now) self.now.schedule) halves }
    {
        self.rounds_abreast(halves)
    }

    // The rounds in order, and then the swap. A part of its own, as are `undone` and `reverse`, so that a wrong order is
    // refused where it is chosen, and not where a proof cites it.
    fn ran(&self, halves: Halves<G::Word>) -> Halves<G::Word>
        ensures { result ≡ ran (network G.Group F.RoundFunction self.now) halves }
    {
        self.rounds(halves).swap()
    }

    // What the network makes of the halves. The turned network takes it back.
    pub fn run(&self, halves: Halves<G::Word>) -> Halves<G::Word>
        ensures value { result ≡ ran (network G.Group F.RoundFunction self.now) halves }
        ensures back { ran (turned (network G.Group F.RoundFunction self.now)) result ≡ halves }
    {
        self.ran(halves.words())
    }

    // The same of four pairs of halves.
    pub fn run_four(&self, halves: Four<Halves<G::Word>>) -> Four<Halves<G::Word>>
        ensures { result ≡ each (ran (network G.Group F.RoundFunction self.now)) halves }
    {
        let rounds = self.rounds_four(halves);
        Four {
            first: rounds.first.swap(),
            second: rounds.second.swap(),
            third: rounds.third.swap(),
            fourth: rounds.fourth.swap(),
        }
    }

    // The rounds taken back, the last one first.
    fn unrounds(&self, halves: Halves<G::Word>) -> Halves<G::Word>
        ensures { result ≡ unrounds (network G.Group F.RoundFunction self.now) self.now.schedule halves }
    {
        self.schedule.kept().iter().rev().fold(
            halves,
            |state, kept| -> Halves<G::Word>
                ensures { result ≡ unround (network G.Group F.RoundFunction self.entry.now) (F.RoundFunction.word_of kept.now) state }
            { self.unround(*kept, state) },
        )
    }

    // The swap taken back, and then the rounds.
    fn undone(&self, halves: Halves<G::Word>) -> Halves<G::Word>
        ensures { result ≡ unran (network G.Group F.RoundFunction self.now) halves }
    {
        self.unrounds(halves.swap())
    }

    // The way back that undoes the rounds, to what the network makes the halves of. It makes of any halves what the turned
    // network makes of them.
    pub fn undo(&self, halves: Halves<G::Word>) -> Halves<G::Word>
        ensures value { result ≡ unran (network G.Group F.RoundFunction self.now) halves }
        ensures turned { result ≡ ran (turned (network G.Group F.RoundFunction self.now)) halves }
        ensures back { ran (network G.Group F.RoundFunction self.now) result ≡ halves }
    {
        self.undone(halves.words())
    }

    // The round words reversed, and the function's values inverted, or no longer inverted.
    fn reverse(&mut self)
        ensures { network G.Group F.RoundFunction self.new ≡ turned (network G.Group F.RoundFunction self.old) }
    {
        self.schedule.reverse();
        self.inverted = !self.inverted;
    }

    // Becomes the inverse network, in place.
    pub fn turn(&mut self)
        ensures network { network G.Group F.RoundFunction self.new ≡ turned (network G.Group F.RoundFunction self.old) }
        ensures again { turned (network G.Group F.RoundFunction self.new) ≡ network G.Group F.RoundFunction self.old }
        ensures inverse { Inverses (Words G.Word.Word.fits) (ran (network G.Group F.RoundFunction self.old)) (ran (network G.Group F.RoundFunction self.new)) }
    {
        self.reverse();
    }

    // Both ways back of any halves, the rounds undone and the turned network run: they agree, and lead to what the network
    // makes the halves of. It is as it was afterwards, which is more than a cipher promises of its map.
    pub fn ways_back(&mut self, halves: Halves<G::Word>) -> WaysBack<Halves<G::Word>>
        ensures undone { result.undone ≡ unran (network G.Group F.RoundFunction self.old) halves }
        ensures turned { result.turned ≡ ran (turned (network G.Group F.RoundFunction self.old)) halves }
        ensures agree { result.undone ≡ result.turned }
        ensures back { ran (network G.Group F.RoundFunction self.old) result.undone ≡ halves }
        ensures same { network G.Group F.RoundFunction self.new ≡ network G.Group F.RoundFunction self.old }
    {
        let undone = self.undo(halves);
        self.turn();
        let turned = self.run(halves);
        self.turn();
        WaysBack { undone, turned }
    }
}
