//! A hub as sessions have it before them.
//!
//! [`OwnDesk`] is the desk of one caller, which has its hub to itself. Whatever was asked of the hub was asked there. `specs/Desks.antt`
//! says what it is seen as.
#![tactic(auto)]

mod own_desk;

pub use own_desk::OwnDesk;
