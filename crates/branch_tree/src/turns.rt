//! What any number of turns tells, as a contract without code.
ghost use Rattle.std.specs.Prelude.{◌≡◌, [], ◌∷◌, ◌++◌, List, length};
ghost use Rattle.solve_defs.specs.Plain.{cut_off, going, plain_cut, run, start};
ghost use Rattle.solve_defs.specs.declared.solving.Events.{Events as EventsDef};
ghost use Rattle.branch_tree.specs.ManyTurns.{Advances, Turned};
ghost use Rattle.branch_tree.specs.Solves.{Solve};

/// After any number of turns from the start, the events told so far and how far the solve is are those of the plain solver after as
/// many turns. So are its outcome and its certificate, where it has ended or is cut then.
#[tactic(auto, using(crate::proofs::Repeated::turn_more, crate::proofs::Repeated::turns_run, crate::proofs::Repeated::turns_cut))]
pub fn turns_are_the_plain_solvers()
    ensures more { (first before after : Solve) (events : List EventsDef) (own : EventsDef) → Turned first events before → Advances own before after
        → Turned first (events ++ own ∷ []) after }
    ensures run { (first last : Solve) (events : List EventsDef) → first.progress ≡ going start → Turned first events last
        → run first.model first.params (length events) (going start) ≡ record { turns = events; progress = last.progress } }
    ensures cut { (first last : Solve) (events : List EventsDef) → first.progress ≡ going start → Turned first events last
        → cut_off last.progress ≡ plain_cut first.model first.params (length events) }
{}
