//! Whether a step was done.

/// Whether a step may stand where it does.
#[derive(Clone, Copy, Debug, PartialEq, Eq)]
pub enum Taken {
    Done,
    Refused,
}
