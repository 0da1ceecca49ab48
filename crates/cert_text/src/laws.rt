//! Laws of the texts of certificates, as contracts without code.

ghost use Rattle.std.specs.Prelude.{◌≡◌, ◌↔◌, List, ℕ, Some};
ghost use Rattle.cert_text.specs.Entries.{HasNumbers, entry_text};
ghost use Rattle.cert_text.specs.Reading.{entry_of};
ghost use Rattle.cert_text.specs.Spelling.{IsFirstBadLine, Spells};
ghost use Rattle.cert_text.specs.declared.entry.Entry.{Entry};
ghost use Rattle.model_data.specs.declared.solution.Cert.{Cert};
ghost use Rattle.model_data.specs.declared.solution.Outcome.{Outcome};

/// A line says what it is the text of, and nothing else.
pub fn a_line_says_what_is_written()
    ensures { (line : List ℕ) (e : Entry) → (entry_of line ≡ Some e) ↔ (HasNumbers e × (entry_text e ≡ line)) }
{}

/// No text spells two outcomes, or two certificates.
pub fn a_text_spells_one_value()
    ensures { (text : List ℕ) (o p : Outcome) (c d : Cert) → Spells text o c → Spells text p d → (o ≡ p) × (c ≡ d) }
{}

/// A text has a first bad line exactly where it spells nothing, and then one alone.
pub fn a_text_that_spells_nothing_has_one_first_bad_line()
    ensures unique { (text : List ℕ) (m n : ℕ) → IsFirstBadLine text m → IsFirstBadLine text n → m ≡ n }
    ensures exists { (text : List ℕ) → ((o : Outcome) (c : Cert) → Spells text o c → ⊥) → (n : ℕ) × IsFirstBadLine text n }
    ensures nothing { (text : List ℕ) (n : ℕ) (o : Outcome) (c : Cert) → IsFirstBadLine text n → Spells text o c → ⊥ }
{}
