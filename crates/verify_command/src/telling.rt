//! What is told of a finding.

ghost use Rattle.std.specs.Prelude.{◌≡◌, ◌++◌, IfOk, OnOk, codes};
ghost use Rattle.base_names.specs.Outside.{Rose};
ghost use Rattle.verify_command.specs.Texts.{place_text, side_letter, verdict_text};
ghost use Rattle.verify_command.specs.Verify.{Tells, TellsVerdict};
ghost use Rattle.solve_defs.specs.declared.verdict.Verdict.TheVariants as verdict;

use crate::command::VerifyEnd;
use crate::finding::Finding;
use base_io::{Sink, Wrote, put};
use base_names::{NoMemory, Text, append};
use solve_defs::{Place, Verdict};
use std::alloc::Global;

/// Writes the line of a finding, where it has one.
pub fn tell<K: Sink>(alloc: Global, finding: &Finding, sink: &mut K) -> VerifyEnd
    ensures same { K.name sink.new ≡ K.name sink.old }
    ensures tells { Tells finding.now result (K.contents sink.old) (K.contents sink.new) }
    ensures write_fault { result ≡ VerifyEnd.WriteFault → Rose (K.faults sink.old) (K.faults sink.new) }
{
    match finding {
        Finding::NoModel(fault) => VerifyEnd::NoModel(*fault),
        Finding::Refused(line) => VerifyEnd::Refused(*line),
        Finding::Checked(verdict) => tell_verdict(alloc, verdict, sink),
    }
}

fn tell_verdict<K: Sink>(alloc: Global, verdict: &Verdict, sink: &mut K) -> VerifyEnd
    ensures same { K.name sink.new ≡ K.name sink.old }
    ensures tells { TellsVerdict verdict.now result (K.contents sink.old) (K.contents sink.new) }
    ensures write_fault { result ≡ VerifyEnd.WriteFault → Rose (K.faults sink.old) (K.faults sink.new) }
{
    match verdict {
        Verdict::Valid => tell_valid(sink),
        Verdict::Invalid(place) => tell_invalid(alloc, place, sink),
        Verdict::TooWide(wide) => VerifyEnd::TooWide(*wide),
    }
}

fn tell_valid<K: Sink>(sink: &mut K) -> VerifyEnd
    ensures same { K.name sink.new ≡ K.name sink.old }
    ensures tells { TellsVerdict verdict.Valid result (K.contents sink.old) (K.contents sink.new) }
    ensures write_fault { result ≡ VerifyEnd.WriteFault → Rose (K.faults sink.old) (K.faults sink.new) }
{
    match put(sink, b"VALID\n") {
        Wrote::Done => VerifyEnd::Valid,
        Wrote::WriteFault => VerifyEnd::WriteFault,
    }
}

fn tell_invalid<K: Sink>(alloc: Global, place: &Place, sink: &mut K) -> VerifyEnd
    ensures same { K.name sink.new ≡ K.name sink.old }
    ensures tells { TellsVerdict (verdict.Invalid place.now) result (K.contents sink.old) (K.contents sink.new) }
    ensures write_fault { result ≡ VerifyEnd.WriteFault → Rose (K.faults sink.old) (K.faults sink.new) }
{
    let line = match invalid_line(alloc, place) {
        Ok(line) => line,
        Err(_) => return VerifyEnd::NoMemory,
    };
    match put(sink, line.as_bytes()) {
        Wrote::Done => VerifyEnd::Invalid,
        Wrote::WriteFault => VerifyEnd::WriteFault,
    }
}

fn invalid_line(alloc: Global, place: &Place) -> Result<Text, NoMemory>
    ensures { IfOk result (λ line. line ≡ verdict_text (verdict.Invalid place.now)) }
{
    let mut line = Vec::new(alloc);
    append(&mut line, "INVALID ")?;
    add_place(&mut line, place)?;
    append(&mut line, "\n")?;
    Ok(Text::of(line))
}

fn add_place(out: &mut Vec<u8>, place: &Place) -> Result<(), NoMemory>
    ensures { OnOk result (out.new.items ≡ out.old.items ++ place_text place.now) }
{
    match place {
        Place::Shape => append(out, "SHAPE"),
        Place::PointRow(number) => append(out, format_args!("POINT ROW {number}")),
        Place::PointBound(number) => append(out, format_args!("POINT BOUND {number}")),
        Place::PointInteger(number) => append(out, format_args!("POINT INTEGER {number}")),
        Place::PointValue => append(out, "POINT VALUE"),
        Place::LeafSign(leaf, side, number) => append(
            out,
            format_args!("LEAF {leaf} SIGN {} {number}", side_letter(*side)),
        ),
        Place::LeafSum(leaf, number) => append(out, format_args!("LEAF {leaf} SUM {number}")),
        Place::LeafSide(leaf) => append(out, format_args!("LEAF {leaf} SIDE")),
        Place::RayRow(number) => append(out, format_args!("RAY ROW {number}")),
        Place::RayBound(number) => append(out, format_args!("RAY BOUND {number}")),
        Place::RayGain => append(out, "RAY GAIN"),
    }
}

/// The letter of a row, of a lower bound or of an upper one.
fn side_letter(side: u8) -> &'static str
    ensures { result.now ≡ side_letter side }
{
    match side {
        0 => "R",
        1 => "L",
        _ => "U",
    }
}
