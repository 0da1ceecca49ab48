//! What holds of number texts and of canonical texts, as contracts without code.
ghost use Rattle.std.specs.Prelude.{◌≡◌, ℕ, ◌↔◌, List, Ok, Some};
ghost use Rattle.frac128.specs.Fraction.{Fraction};
ghost use Rattle.frac128.specs.Lowest.{IsKept};
ghost use Rattle.frac_text.specs.Grammar.{Spells};
ghost use Rattle.frac_text.specs.Number.{Number};
ghost use Rattle.frac_text.specs.Reading.{number_of, reading};
ghost use Rattle.frac_text.specs.Writing.{canonical_text};

/// A text is read as the parts that it has by the grammar, and it is no number text exactly where it has none.
pub fn reading_is_the_grammar()
    ensures { (text : List ℕ) (n : Number) → (number_of text ≡ Some n) ↔ Spells text n }
{}

/// No text has parts in two ways.
pub fn parts_are_unique()
    ensures { (text : List ℕ) (m n : Number) → Spells text m → Spells text n → m ≡ n }
{}

/// What is written is read again, and each value has its own text.
pub fn written_is_read()
    ensures read { (x : Fraction) → IsKept x → reading (canonical_text x) ≡ Ok x }
    ensures one_value { (x y : Fraction) → IsKept x → IsKept y → canonical_text x ≡ canonical_text y → x ≡ y }
{}
