//! Answers, each written behind what stands on a kept buffer.
//!
//! After want of memory a part of the answer may stand there.

ghost use Rattle.std.specs.Prelude.{◌≡◌, ◌++◌, OnOk};
ghost use Rattle.wire_text.specs.Answers.{block_text, bye_text, count_text, done_text, kind_text, kind_word, lower_text, number_text, refusal_line, reply_text, sense_text, sense_word, tag_text, updated_text, upper_text, value_text, whole_text};

use base_names::{NoMemory, Refusal, append};
use frac_text::write_onto;
use frac128::Frac;
use hub_words::Reply;
use model_data::{Sense, VarKind};

/// `OK`
pub fn append_done(out: &mut Vec<u8>) -> Result<(), NoMemory>
    ensures { OnOk result (out.new.items ≡ out.old.items ++ done_text) }
{
    out.extend_from_slice(b"OK\n")?;
    Ok(())
}

/// `BYE`
pub fn append_bye(out: &mut Vec<u8>) -> Result<(), NoMemory>
    ensures { OnOk result (out.new.items ≡ out.old.items ++ bye_text) }
{
    out.extend_from_slice(b"BYE\n")?;
    Ok(())
}

/// `UPDATED`, and how many changes were made.
pub fn append_updated(out: &mut Vec<u8>, count: u64) -> Result<(), NoMemory>
    ensures { OnOk result (out.new.items ≡ out.old.items ++ updated_text count) }
{
    append(out, format_args!("UPDATED {count}\n"))
}

/// `VALUE`, and a number.
pub fn append_number(out: &mut Vec<u8>, value: &Frac) -> Result<(), NoMemory>
    ensures { OnOk result (out.new.items ≡ out.old.items ++ number_text value.now) }
{
    out.extend_from_slice(b"VALUE ")?;
    write_onto(out, value)?;
    out.push(b'\n')?;
    Ok(())
}

/// `VALUE`, and a lower bound; `None` is `-inf`.
pub fn append_lower(out: &mut Vec<u8>, bound: &Option<Frac>) -> Result<(), NoMemory>
    ensures { OnOk result (out.new.items ≡ out.old.items ++ lower_text bound.now) }
{
    match bound {
        Some(value) => append_number(out, value),
        None => append_text(out, b"-inf"),
    }
}

/// `VALUE`, and an upper bound; `None` is `inf`.
pub fn append_upper(out: &mut Vec<u8>, bound: &Option<Frac>) -> Result<(), NoMemory>
    ensures { OnOk result (out.new.items ≡ out.old.items ++ upper_text bound.now) }
{
    match bound {
        Some(value) => append_number(out, value),
        None => append_text(out, b"inf"),
    }
}

/// `VALUE`, and `C`, `I` or `B`.
pub fn append_kind(out: &mut Vec<u8>, kind: VarKind) -> Result<(), NoMemory>
    ensures { OnOk result (out.new.items ≡ out.old.items ++ kind_text kind) }
{
    append_text(out, kind_word(kind).as_bytes())
}

/// `VALUE`, and `<=`, `>=` or `=`.
pub fn append_sense(out: &mut Vec<u8>, sense: Sense) -> Result<(), NoMemory>
    ensures { OnOk result (out.new.items ≡ out.old.items ++ sense_text sense) }
{
    append_text(out, sense_word(sense).as_bytes())
}

/// `VALUE`, and a tag.
pub fn append_tag(out: &mut Vec<u8>, tag: &[u8]) -> Result<(), NoMemory>
    ensures { OnOk result (out.new.items ≡ out.old.items ++ tag_text tag.now) }
{
    append_text(out, tag)
}

/// `VALUE`, and a count.
pub fn append_count(out: &mut Vec<u8>, count: u64) -> Result<(), NoMemory>
    ensures { OnOk result (out.new.items ≡ out.old.items ++ count_text count) }
{
    append(out, format_args!("VALUE {count}\n"))
}

/// `VALUE`, and a whole number.
pub fn append_whole(out: &mut Vec<u8>, value: i128) -> Result<(), NoMemory>
    ensures { OnOk result (out.new.items ≡ out.old.items ++ whole_text value) }
{
    append(out, format_args!("VALUE {value}\n"))
}

/// `BLOCK`, the text's length in bytes, and in further lines the text.
pub fn append_block(out: &mut Vec<u8>, text: &[u8]) -> Result<(), NoMemory>
    ensures { OnOk result (out.new.items ≡ out.old.items ++ block_text text.now) }
{
    let len = text.len();
    append(out, format_args!("BLOCK {len}\n"))?;
    out.extend_from_slice(text)?;
    out.push(b'\n')?;
    Ok(())
}

/// The text of a refusal.
pub fn append_refusal(out: &mut Vec<u8>, refusal: &Refusal) -> Result<(), NoMemory>
    ensures { OnOk result (out.new.items ≡ out.old.items ++ refusal_line refusal.now) }
{
    append(out, format_args!("{refusal}\n"))
}

/// What the hub replied.
pub fn append_reply(out: &mut Vec<u8>, reply: &Reply) -> Result<(), NoMemory>
    ensures { OnOk result (out.new.items ≡ out.old.items ++ reply_text reply.now) }
{
    match reply {
        Reply::Made(id) => append(out, format_args!("BATCH {id}\n")),
        Reply::Status(id, status) => append(out, format_args!("BSTATUS {id} {status}\n")),
        Reply::Refused(refusal) => append_refusal(out, refusal),
    }
}

/// `VALUE`, and the text.
fn append_text(out: &mut Vec<u8>, text: &[u8]) -> Result<(), NoMemory>
    ensures { OnOk result (out.new.items ≡ out.old.items ++ value_text text.now) }
{
    out.extend_from_slice(b"VALUE ")?;
    out.extend_from_slice(text)?;
    out.push(b'\n')?;
    Ok(())
}

fn kind_word(kind: VarKind) -> &'static str
    ensures { result.now ≡ kind_word kind }
{
    match kind {
        VarKind::Continuous => "C",
        VarKind::Integer => "I",
        VarKind::Binary => "B",
    }
}

fn sense_word(sense: Sense) -> &'static str
    ensures { result.now ≡ sense_word sense }
{
    match sense {
        Sense::Less => "<=",
        Sense::Greater => ">=",
        Sense::Equal => "=",
    }
}
