//! Who speaks: the role, the seat, and the job that a seat holds.

use crate::owner::Owner;

/// What a seat may do.
#[derive(Clone, Copy, Debug, PartialEq, Eq, PartialOrd, Ord, Hash)]
pub enum Role {
    Standard,
    /// It may also change nodes and end the jobs of others.
    Admin,
}

/// One client's place, under its number. Seats are ordered by number, then by owner, and then with
/// the standard role first.
#[derive(Clone, Copy, Debug, PartialEq, Eq, PartialOrd, Ord, Hash)]
pub struct Seat {
    pub number: u32,
    pub owner: Owner,
    pub role: Role,
}

/// A job of a seat. `number` counts the jobs of this seat from 1.
#[derive(Clone, Copy, Debug, PartialEq, Eq, PartialOrd, Ord, Hash)]
pub struct JobId {
    pub seat: Seat,
    pub number: u32,
}
