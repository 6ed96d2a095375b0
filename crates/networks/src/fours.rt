// Four of a kind.

// They are worked on side by side, since a processor that waits for a step of one can take a step of another.
#[derive(Clone, Copy, Debug, PartialEq, Eq)]
pub struct Four<T> {
    pub first: T,
    pub second: T,
    pub third: T,
    pub fourth: T,
}
