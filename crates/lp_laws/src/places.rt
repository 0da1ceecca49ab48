//! Where a text's fault stands, as a contract without code.
ghost use Rattle.std.specs.Prelude.{ℕ, List};
ghost use Rattle.lp_defs.specs.declared.fault.ModelFault.{ModelFault};
ghost use Rattle.lp_defs.specs.Symbols.{spot_of};
ghost use Rattle.lp_defs.specs.Text.{seen};
ghost use Rattle.lp_defs.specs.Tokens.{end_of};
ghost use Rattle.lp_laws.specs.Faults.{IsFaultOf};
ghost use Rattle.lp_laws.specs.Places.{IsPlaced};

/// The tokens before the fault can be gone on with to tokens that spell a model, but for a number at their end, in the place of
/// which another one may be wanted. Where the fault is at a token, nothing that begins with the tokens up to and with it
/// spells a model, or the next token or run decides it, and nothing that begins with both does.
pub fn where_a_fault_stands()
    ensures { (text : List ℕ) (f : ModelFault) → IsFaultOf text f → IsPlaced (seen text) (spot_of (end_of text)) f }
{}
