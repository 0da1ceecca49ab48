//! What holds of a cluster: laws of the definitions that stand in `cluster_defs`, as functions without code.
//!
//! What a program does is said by the definitions, and that is what it stands on; what they come to is said here. `specs/Places.antt` says of each place that is given what it has to be, apart from how it is
//! found, and `specs/Sound.antt` and `specs/Seated.antt` how a batch and a seat stand in every history.
//!
//! - placing: [`placing_repeats_the_rule`], [`each_place_is_the_best`];
//! - behind every history: [`each_batch_waits_or_runs_once`], [`none_that_waits_may_run`], [`what_runs_stays`], [`jobs_are_listed_in_order`],
//!   [`nodes_keep_their_numbers`], [`counted_entries_stay_within_their_limit`];
//! - sums: [`no_sum_passes_64_bits`], by the bounds of `specs/Bounds.antt`;
//! - a cluster without nodes: [`batches_are_kept_without_nodes`];
//! - each owner is alone: [`one_step_is_an_own_step`], [`replies_are_own_replies`], [`a_look_is_an_own_look`];
//! - through openings and stops: [`a_journal_is_what_its_events_tell`], [`a_clusters_table_is_its_journals`],
//!   [`a_journal_holds_plain_results`], [`an_outcome_always_fits`], [`a_journal_has_room_for_outcomes`], [`an_openings_end_is_its_journals`],
//!   [`faults_are_counted_through_openings`].
#![tactic(auto)]

mod bound_laws;
mod isolation_laws;
mod journal_laws;
mod placing_laws;
mod standing_laws;
mod step_laws;

pub use bound_laws::no_sum_passes_64_bits;
pub use isolation_laws::{a_look_is_an_own_look, one_step_is_an_own_step, replies_are_own_replies};
pub use journal_laws::{
    a_clusters_table_is_its_journals, a_journal_has_room_for_outcomes,
    a_journal_holds_plain_results, a_journal_is_what_its_events_tell,
    an_openings_end_is_its_journals, an_outcome_always_fits, faults_are_counted_through_openings,
};
pub use placing_laws::{each_place_is_the_best, placing_repeats_the_rule};
pub use standing_laws::{
    counted_entries_stay_within_their_limit, each_batch_waits_or_runs_once,
    jobs_are_listed_in_order, nodes_keep_their_numbers, none_that_waits_may_run, what_runs_stays,
};
pub use step_laws::batches_are_kept_without_nodes;
