//! What an accepted change leaves, as contracts without code.
ghost use Rattle.std.specs.Prelude.{◌≡◌, List, Ok, false, filter, filter_map, not, ℕ};
ghost use Rattle.model_data.specs.Kept.{HasKeptNumbers};
ghost use Rattle.model_data.specs.Lawful.{AreDistinct, IsLawful};
ghost use Rattle.model_data.specs.Names.{IsTag};
ghost use Rattle.model_data.specs.declared.model.Model.{Model};
ghost use Rattle.model_core.specs.Asked.{HasKeptNumbersOf, IsLawfulChange};
ghost use Rattle.model_core.specs.Effect.{on_var};
ghost use Rattle.model_core.specs.Field.{with_tag};
ghost use Rattle.model_core.specs.Named.{is_var, knows_var};
ghost use Rattle.model_core.specs.One.{one};
ghost use Rattle.model_core.specs.declared.change.Change.TheVariants.{DelVar, SetTag};
ghost use Rattle.model_core.specs.declared.change.Change.{Change};

/// A lawful model stays lawful under a change whose finite bounds are small enough and whose tag is one, and its numbers stay
/// kept.
pub fn a_change_keeps_a_lawful_model()
    ensures lawful { (m n : Model) (c : Change) → IsLawful m → IsLawfulChange c → one m c ≡ Ok n → IsLawful n }
    ensures kept { (m n : Model) (c : Change) → HasKeptNumbers m → HasKeptNumbersOf c → one m c ≡ Ok n → HasKeptNumbers n }
{}

/// Giving a tag changes that field of that variable alone, and the tags stay distinct.
pub fn a_tag_is_given_to_one_variable()
    ensures variable { (m n : Model) (name tag : List ℕ) → one m (SetTag name tag) ≡ Ok n → n ≡ on_var name (with_tag tag) m }
    ensures distinct { (m n : Model) (name tag : List ℕ) → IsLawful m → IsTag tag → one m (SetTag name tag) ≡ Ok n
        → AreDistinct (filter_map (λ v. v.tag) n.vars) }
{}

/// A variable that is deleted is gone, the others keep their order, and each term's variable is one of them.
pub fn a_deleted_variable_is_gone()
    ensures gone { (m n : Model) (name : List ℕ) → one m (DelVar name) ≡ Ok n → knows_var name n ≡ false }
    ensures others { (m n : Model) (name : List ℕ) → one m (DelVar name) ≡ Ok n → n.vars ≡ filter (λ v. not (is_var name v)) m.vars }
    ensures lawful { (m n : Model) (name : List ℕ) → IsLawful m → one m (DelVar name) ≡ Ok n → IsLawful n }
{}
