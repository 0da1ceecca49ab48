//! What images are read as, as contracts without code.

ghost use Rattle.std.specs.Prelude.{◌≡◌, ◌⊎◌, ◌<◌, ℕ, List, [], ◌∷◌, ◌++◌, drop, slice_index, Option, None};
ghost use Rattle.std.specs.Option.{IsSomeAnd};
ghost use Rattle.journal.specs.Mounting.{HasHeader, Mends, with_open_gate};
ghost use Rattle.journal.specs.Reading.{AreRead};
ghost use Rattle.journal.specs.Records.{records};
ghost use Rattle.journal.specs.Standing.{Holds, Stands, WhileAdding, bodies_of, doubt_of};
ghost use Rattle.journal.specs.declared.journal.Journal.{Journal};

use disk_model::Disk;

/// A file is read as the format says: open records behind its header, each with one more byte behind it, up to the first place
/// where there is none.
pub fn a_file_is_read_while_its_gates_are_open()
    ensures so { (file : List ℕ) → ((i : ℕ) → slice_index (drop 8 file) i < 256) → AreRead (records file) (drop 8 file) }
    ensures only { (bodies : List (List ℕ)) (file : List ℕ) → ((i : ℕ) → slice_index (drop 8 file) i < 256) → AreRead bodies (drop 8 file) → records file ≡ bodies }
{}

/// An image that holds bodies is read as those, or as those and the one in doubt. It may be opened, and a mounting that is cut
/// short leaves one that holds the same: so does any number of them.
pub fn an_image_is_read_as_its_bodies()
    ensures reads { (bodies : List (List ℕ)) (doubt : Option (List ℕ)) (image : List ℕ) → Holds bodies doubt image → (records image ≡ bodies) ⊎ IsSomeAnd doubt (λ d. records image ≡ bodies ++ d ∷ []) }
    ensures opens { (bodies : List (List ℕ)) (doubt : Option (List ℕ)) (image : List ℕ) → Holds bodies doubt image → HasHeader image }
    ensures mends { (bodies : List (List ℕ)) (doubt : Option (List ℕ)) (file image : List ℕ) → Holds bodies doubt file → Mends file image → Holds bodies doubt image }
{}

/// While a body is added, an image is read as the bodies before, as these and the one that was in doubt, or as these and the new
/// one alone.
pub fn an_append_leaves_at_most_one_more()
    ensures { (bodies : List (List ℕ)) (doubt : Option (List ℕ)) (body image : List ℕ) → WhileAdding bodies doubt body image → (records image ≡ bodies) ⊎ (IsSomeAnd doubt (λ d. records image ≡ bodies ++ d ∷ []) ⊎ (records image ≡ bodies ++ body ∷ [])) }
{}

/// A mounting leaves a file that is read as before, or as it would be with an open gate at its end.
pub fn a_mounting_opens_one_gate_at_most()
    ensures { (file image : List ℕ) → Mends file image → (records image ≡ records file) ⊎ (records image ≡ records (with_open_gate file)) }
{}

/// Between calls, what a crash leaves holds a journal's bodies with the one in doubt; where none is, it is read as its bodies.
pub fn a_journal_stands_for_its_bodies<D: Disk>()
    ensures holds { (j : Journal D) (image : List ℕ) → Stands D.moment D.left j → D.left j.disk (D.moment j.disk) image → Holds (bodies_of j) (doubt_of j) image }
    ensures sure { (j : Journal D) (image : List ℕ) → Stands D.moment D.left j → D.left j.disk (D.moment j.disk) image → doubt_of j ≡ None → records image ≡ bodies_of j }
{}
