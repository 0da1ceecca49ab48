//! What is armed on a disk, and what a stop leaves.

/// What a stop leaves: nothing of what was written since the last sync, all of it, or this byte in each place that was written.
#[derive(Clone, Copy, Debug, PartialEq, Eq)]
pub enum Image {
    Old,
    New,
    Fill(u8),
}

/// A failure of the k-th call from now, which is at least 1, or a stop in it. A stop in call 0 comes at once.
#[derive(Clone, Copy, Debug, PartialEq, Eq)]
pub enum Arm {
    Fail(u64),
    Stop(u64, Image),
}

/// It is armed.
#[derive(Clone, Copy, Debug, PartialEq, Eq)]
pub struct Armed;

/// The machine was started again.
#[derive(Clone, Copy, Debug, PartialEq, Eq)]
pub struct Restarted;
