// The two ways back of one value.

// What the rounds undone make of it, and what the turned network or cipher makes of it.
#[derive(Clone, Copy, Debug, PartialEq, Eq)]
pub struct WaysBack<T> {
    pub undone: T,
    pub turned: T,
}
