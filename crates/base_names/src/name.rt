//! Names and tags of what stands in a model: texts that are not to be taken for one another.

ghost use Rattle.std.specs.Prelude.{◌≡◌, ◌==◌, IfOk, length};

use crate::copying::TryCopy;
use crate::memory::NoMemory;
use crate::text::Text;
use std::alloc::Global;
use std::marker::{Model, PhantomData};

/// The name of a variable or of a row.
pub type Name = Label<Named>;

/// The tag by which a solution names a variable.
pub type Tag = Label<Tagged>;

/// What a [`Name`] is a label for.
#[derive(Clone, Copy, Debug)]
pub struct Named;

/// What a [`Tag`] is a label for.
#[derive(Clone, Copy, Debug)]
pub struct Tagged;

/// A text of one kind. Contracts see it as the list of its bytes; which bytes are lawful is said where
/// it is read.
#[derive(Debug, Drop)]
pub struct Label<Kind> {
    text: Text,
    kind: PhantomData<Kind>,
}

impl<Kind> Model for Label<Kind> {
    ghost use Rattle.std.specs.Prelude.{List, ℕ};

    ghost Value = { List ℕ };

    ghost view = { λ label. label.text };
}

impl<Kind> Label<Kind> {
    pub fn of(bytes: Vec<u8>) -> Label<Kind>
        ensures { result ≡ bytes.items }
    {
        Label {
            text: Text::of(bytes),
            kind: PhantomData,
        }
    }

    pub fn as_bytes(&self) -> &[u8]
        ensures { result.now ≡ self.now }
    {
        self.text.as_bytes()
    }

    pub fn len(&self) -> usize
        ensures { result ≡ length self.now }
    {
        self.text.len()
    }

    pub fn is_empty(&self) -> bool
        ensures { result ≡ (length self.now == 0) }
    {
        self.text.is_empty()
    }

    pub fn into_vec(self) -> Vec<u8>
        ensures { result.items ≡ self }
    {
        self.text.into_vec()
    }

    /// An equal label.
    pub fn copy(&self, alloc: Global) -> Result<Label<Kind>, NoMemory>
        ensures { IfOk result (λ copy. copy ≡ self.now) }
    {
        Ok(Label {
            text: self.text.copy(alloc)?,
            kind: PhantomData,
        })
    }
}

impl<Kind> PartialEq for Label<Kind> {
    ghost use Rattle.std.specs.Str.{bytes_eq};
    ghost use Rattle.std.proofs.Common.{rules};

    ghost eq = { bytes_eq };

    ghost laws = { Prim.search rules };

    fn eq(&self, other: &Label<Kind>) -> bool {
        self.text == other.text
    }
}

impl<Kind> Eq for Label<Kind> {
    ghost use Rattle.std.proofs.Common.{rules};

    ghost laws = { Prim.search rules };
}

impl<Kind: Drop> TryCopy for Label<Kind> {
    fn try_copy(&self, alloc: Global) -> Result<Label<Kind>, NoMemory> {
        self.copy(alloc)
    }
}
