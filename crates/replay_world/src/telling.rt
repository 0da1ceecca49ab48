//! What steps say, each behind what stands in a buffer.

ghost use Rattle.std.specs.Prelude.{◌≡◌, ◌++◌, OnOk, codes, decimal};
ghost use Rattle.replay_world.specs.Steps.{armed_text, numbered, out_text, stopped_text};

use base_names::{NoMemory, append};

/// `SEATED`, and the seat.
pub fn append_seated(out: &mut Vec<u8>, seat: u8) -> Result<(), NoMemory>
    ensures { OnOk result (out.new.items ≡ out.old.items ++ numbered (codes "SEATED ") seat) }
{
    append(out, format_args!("SEATED {seat}\n"))
}

/// `HUNG`, and the seat.
pub fn append_hung(out: &mut Vec<u8>, seat: u8) -> Result<(), NoMemory>
    ensures { OnOk result (out.new.items ≡ out.old.items ++ numbered (codes "HUNG ") seat) }
{
    append(out, format_args!("HUNG {seat}\n"))
}

/// `OUT`, the seat, and the length of what its session wrote, which stands behind.
pub fn append_out(out: &mut Vec<u8>, seat: u8, text: &[u8]) -> Result<(), NoMemory>
    ensures { OnOk result (out.new.items ≡ out.old.items ++ out_text seat text.now) }
{
    let len = text.len();
    append(out, format_args!("OUT {seat} {len}\n"))?;
    out.extend_from_slice(text)?;
    Ok(())
}

/// `OPENED`, and how many batches there are.
pub fn append_opened(out: &mut Vec<u8>, rows: u64) -> Result<(), NoMemory>
    ensures { OnOk result (out.new.items ≡ out.old.items ++ numbered (codes "OPENED ") rows) }
{
    append(out, format_args!("OPENED {rows}\n"))
}

/// `NOTOPEN`
pub fn append_not_open(out: &mut Vec<u8>) -> Result<(), NoMemory>
    ensures { OnOk result (out.new.items ≡ out.old.items ++ codes "NOTOPEN\n") }
{
    out.extend_from_slice(b"NOTOPEN\n")?;
    Ok(())
}

/// `ARMED`
pub fn append_armed(out: &mut Vec<u8>) -> Result<(), NoMemory>
    ensures { OnOk result (out.new.items ≡ out.old.items ++ armed_text) }
{
    out.extend_from_slice(b"ARMED\n")?;
    Ok(())
}

/// `STOPPED`, and nothing else is said with it.
pub fn append_stopped(out: &mut Vec<u8>) -> Result<(), NoMemory>
    ensures { OnOk result (out.new.items ≡ out.old.items ++ stopped_text) }
{
    out.extend_from_slice(b"STOPPED\n")?;
    Ok(())
}
