// Two of a kind.

// They are worked on side by side, since a processor that waits for a product of one can take a product of the other. The
// words of more than two would not fit into its registers.
#[derive(Clone, Copy)]
pub(crate) struct Two<T> {
    pub(crate) first: T,
    pub(crate) second: T,
}
