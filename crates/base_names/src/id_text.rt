//! The spelling of a batch's ID: the owner's name, a point, and the number without a leading zero. A
//! text with 0 for the number is an ID too, though no batch has it.

ghost use Rattle.std.specs.Prelude.{◌≡◌, ◌==◌, IfOk, IfSome, Some, position};
ghost use Rattle.base_names.specs.declared.id.BatchId.{BatchId};
ghost use Rattle.base_names.specs.Id.{id_of, id_of_parts, id_text, IsId};

use crate::decimal::read_decimal;
use crate::id::BatchId;
use crate::memory::NoMemory;
use crate::owner::Owner;
use crate::text::Text;
use crate::writing::append;
use std::alloc::Global;
use std::fmt;

/// The batch of this ID. `None` where the text spells none.
pub fn read_id(text: &[u8]) -> Option<BatchId>
    ensures exact { result ≡ id_of text.now }
    // What is read is spelled so, and what is spelled so is read.
    ensures spelled { IfSome result (λ id. id_text id ≡ text.now) }
    ensures only { (id : BatchId) → IsId id → id_text id ≡ text.now → result ≡ Some id }
{
    let point = first_point(text)?;
    id_of_parts(&text[..point], &text[point + 1..])
}

/// The batch's ID as a text.
pub fn write_id(alloc: Global, id: &BatchId) -> Result<Text, NoMemory>
    ensures text { IfOk result (λ text. text ≡ id_text id.now) }
    ensures read { IfOk result (λ text. id_of text ≡ Some id.now) }
{
    let BatchId {
        owner,
        number: _in_range,
    } = *id;
    // The proof of `read` learns from this call that the name is an owner's.
    let _name = owner.as_bytes();
    let mut text = Vec::new(alloc);
    append(&mut text, id)?;
    Ok(Text::of(text))
}

impl fmt::Display for BatchId {
    ghost output = { λ id. Some (id_text id) };

    fn fmt<W: fmt::Write>(&self, f: &mut fmt::Formatter<W>) -> fmt::Result {
        write!(f, "{}.{}", self.owner, self.number)
    }
}

fn first_point(text: &[u8]) -> Option<usize>
    ensures { result ≡ position (λ byte. byte == 46) text.now }
{
    text.iter().position(|byte| *byte == b'.')
}

fn id_of_parts(owner: &[u8], digits: &[u8]) -> Option<BatchId>
    ensures { result ≡ id_of_parts owner.now digits.now }
{
    let owner = Owner::read(owner)?;
    let number = u32::try_from(read_decimal(digits)?).ok()?;
    Some(BatchId { owner, number })
}
