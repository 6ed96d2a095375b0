// Machine words, with their sum modulo the number of words.
ghost use Rattle.std.specs.Prelude.{◌≡◌, ◌^◌, ◌<◌};
ghost use Rattle.std.proofs.Common.{rules};
ghost use Rattle.groups.specs.Laws.{Lawful};
ghost use Rattle.groups.specs.Sums.{sum, negative};

// In a contract a number is unbounded, so each word type says which numbers are its words.
pub trait Word: Copy {
    // the numbers that are words of this type
    ghost fits: { Self → Type 0 };

    // The word itself. It tells that every value of the type is a word, so that no type can call only some of them words.
    fn word(self) -> Self
        ensures value { result ≡ self }
        ensures fits { fits self };
}

// Words with their sum modulo the number of words.
pub trait Summed: Word {
    const ZERO: Self;

    // the constant, in clauses
    ghost ZERO: { Self };

    ghost summed: { Self → Self → Self };

    ghost negated: { Self → Self };

    fn wrapping_add(self, other: Self) -> Self
        ensures { result ≡ summed self other };

    fn wrapping_neg(self) -> Self
        ensures { result ≡ negated self };

    // what each implementation shows
    ghost lawful: { Lawful Self.Word.fits ZERO summed negated };
}

impl Word for u16 {
    ghost fits = { λ x. x < 2 ^ 16 };

    fn word(self) -> u16 {
        self
    }
}

impl Word for u32 {
    ghost fits = { λ x. x < 2 ^ 32 };

    fn word(self) -> u32 {
        self
    }
}

// One implementation for each width: it holds what the widths differ in. No macro could write both, since its body can hold
// no ghost member.
impl Summed for u16 {
    const ZERO: u16 = 0;

    ghost ZERO = { 0 };

    ghost summed = { sum (2 ^ 16) };

    ghost negated = { negative (2 ^ 16) };

    ghost lawful = { Prim.search rules };

    fn wrapping_add(self, other: u16) -> u16 {
        u16::wrapping_add(self, other)
    }

    fn wrapping_neg(self) -> u16 {
        u16::wrapping_neg(self)
    }
}

impl Summed for u32 {
    const ZERO: u32 = 0;

    ghost ZERO = { 0 };

    ghost summed = { sum (2 ^ 32) };

    ghost negated = { negative (2 ^ 32) };

    ghost lawful = { Prim.search rules };

    fn wrapping_add(self, other: u32) -> u32 {
        u32::wrapping_add(self, other)
    }

    fn wrapping_neg(self) -> u32 {
        u32::wrapping_neg(self)
    }
}
