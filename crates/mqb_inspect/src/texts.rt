//! The text of a verdict.
ghost use Rattle.std.specs.Prelude.{◌≡◌, ◌++◌, IfOk, OnOk};
ghost use Rattle.std.specs.Fmt.{decimal};
ghost use Rattle.mqb_inspect.specs.Outputs.{cause_text, closed_text, kind_text, verdict_text};

use mqb_base::{Cause, Memory};
use mqb_capture::{BreakCause, Verdict};
use mqb_fields::HeadKind;
use std::alloc::Global;

/// Adds a text and a number.
fn put_number(text: &mut Vec<u8>, alloc: Global, front: &[u8], number: usize) -> Result<(), Memory>
    ensures { OnOk result (text.new.items ≡ text.old.items ++ (front.now ++ decimal number)) }
{
    text.extend_from_slice(front)?;
    text.extend_from_slice(number.to_string(alloc)?.as_bytes())?;
    Ok(())
}

fn closed_text(cause: Cause) -> &'static [u8]
    ensures { result.now ≡ closed_text cause }
{
    match cause {
        Cause::Early => b"closed early",
        Cause::BadAck => b"closed badack",
        Cause::Refused => b"closed refused",
        Cause::Repeated => b"closed repeated",
        Cause::Foreign => b"closed foreign",
    }
}

fn kind_text(kind: HeadKind) -> &'static [u8]
    ensures { result.now ≡ kind_text kind }
{
    match kind {
        HeadKind::Short => b" short",
        HeadKind::Version => b" version",
        HeadKind::Debug => b" debug",
        HeadKind::Signature => b" signature",
        HeadKind::Size => b" size",
        HeadKind::Kind => b" kind",
        HeadKind::Secured => b" secured",
        HeadKind::Name => b" name",
        HeadKind::Label => b" label",
        HeadKind::Class => b" class",
        HeadKind::Sizes => b" sizes",
    }
}

/// Adds the text of a cause.
fn put_cause(text: &mut Vec<u8>, alloc: Global, cause: BreakCause) -> Result<(), Memory>
    ensures { OnOk result (text.new.items ≡ text.old.items ++ cause_text cause) }
{
    let word: &[u8] = match cause {
        BreakCause::Bad { fault } => {
            put_number(text, alloc, b"bad ", fault.at)?;
            kind_text(fault.kind)
        }
        BreakCause::Origin => b"origin",
        BreakCause::Phase => b"phase",
        BreakCause::Window => b"window",
        BreakCause::Stamp => b"stamp",
        BreakCause::Closed(why) => closed_text(why),
        BreakCause::Link => b"link",
        BreakCause::Cut => b"cut",
    };
    text.extend_from_slice(word)?;
    Ok(())
}

/// The line of a verdict.
pub fn verdict_text(alloc: Global, verdict: Verdict) -> Result<Vec<u8>, Memory>
    ensures { IfOk result (λ text. text.items ≡ verdict_text verdict) }
{
    let mut text = Vec::new(alloc);
    match verdict {
        Verdict::Lawful { sent, heard } => {
            put_number(&mut text, alloc, b"lawful ", sent as usize)?;
            put_number(&mut text, alloc, b" ", heard as usize)?;
        }
        Verdict::Broken { index, cause } => {
            put_number(&mut text, alloc, b"broken ", index as usize)?;
            text.extend_from_slice(b" ")?;
            put_cause(&mut text, alloc, cause)?;
        }
    }
    text.extend_from_slice(b"\n")?;
    Ok(text)
}
