//! The bounds of the case under way, and the cases that are to come.
//!
//! All is kept on one stack: the cases that wait, the next one on top, and between them what stood where a cut was made. What lies
//! above a case that waits leads back to the bounds that it begins with, so that no bounds are formed anew. Memory is linear in the
//! depth, and nothing here goes down it by calls.
ghost use Rattle.std.specs.Prelude.{◌≡◌, ◌<◌, [], ◌∷◌, IfOk, length, OnOk, slice_index_or, slice_set};
ghost use Rattle.solve_defs.specs.Bounds.{both};
ghost use Rattle.cert_check.specs.Open.{Begins};
ghost use Rattle.cert_check.specs.declared.cases.Entry.TheVariants.{Here as here};

use crate::bounds::Bounds;
use base_names::NoMemory;
use std::alloc::Global;
use std::marker::Model;

/// What a case begins with, on top of its bounds.
#[derive(Clone, Copy, Debug)]
pub(crate) enum Entry {
    /// Nothing.
    Here,
    /// The variable of this place is at least one more than this number.
    Above(u32, i128),
}

#[derive(Clone, Copy, Debug)]
enum Kept {
    Waiting(Entry),
    /// What stood at this place before a cut.
    Before(u32, Bounds),
}

/// The bounds of each variable in the case under way, and the cases that are to come.
#[derive(Debug, Drop)]
pub(crate) struct Cases {
    bounds: Vec<Bounds>,
    kept: Vec<Kept>,
}

impl Model for Cases {
    ghost use Rattle.cert_check.specs.Open.{Open};
    ghost use Rattle.cert_check.specs.Stack.{IsStacked, open_of};

    ghost Value = { Open };

    ghost view = { open_of };

    ghost invariant = { IsStacked };
}

impl Cases {
    /// A case is to come with these bounds.
    pub(crate) fn of(alloc: Global, bounds: Vec<Bounds>) -> Result<Cases, NoMemory>
        ensures { IfOk result (λ cases. cases ≡ record { bounds = bounds.items; later = record { bounds = bounds.items; entry = here } ∷ [] }) }
    {
        let mut kept = Vec::new(alloc);
        kept.push(Kept::Waiting(Entry::Here))?;
        Ok(Cases { bounds, kept })
    }

    /// The bounds in the case under way.
    pub(crate) fn bounds(&self) -> &[Bounds]
        ensures { result.now ≡ self.now.bounds }
    {
        self.bounds.as_slice()
    }

    /// A cut of the case under way: the variable of this place is within these bounds, too.
    pub(crate) fn cut(&mut self, place: u32, bounds: &Bounds) -> Result<(), NoMemory>
        requires { place < length self.old.bounds }
        ensures { OnOk result (self.new ≡ record self.old { bounds = slice_set self.old.bounds place (both (slice_index_or self.old.bounds place bounds.now) bounds.now) }) }
    {
        let own = self.bounds[place as usize];
        self.kept.push(Kept::Before(place, own))?;
        self.bounds[place as usize] = own.both(bounds);
        Ok(())
    }

    /// A case waits that begins with the bounds of the one under way.
    pub(crate) fn wait(&mut self, entry: Entry) -> Result<(), NoMemory>
        ensures { OnOk result (self.new ≡ record self.old { later = record { bounds = self.old.bounds; entry = entry } ∷ self.old.later }) }
    {
        self.kept.push(Kept::Waiting(entry))?;
        Ok(())
    }

    /// The next case begins, where one waits.
    pub(crate) fn next(&mut self) -> Option<Entry>
        ensures { Begins self.old.later result self.new }
    {
        while let Some(top) = self.kept.pop() {
            match &top {
                Kept::Waiting(entry) => return Some(*entry),
                Kept::Before(place, bounds) => self.bounds[*place as usize] = *bounds,
            }
        }
        None
    }
}
