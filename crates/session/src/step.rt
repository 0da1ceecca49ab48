//! What comes after a line.

/// What comes after a line was answered.
#[derive(Clone, Copy, Debug, PartialEq, Eq)]
pub enum Next {
    More,
    /// `BYE` was answered.
    Bye,
    WriteFault,
    /// The answer's own bytes found no memory.
    NoMemory,
}
