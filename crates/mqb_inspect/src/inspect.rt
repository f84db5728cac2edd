//! What is said of a capture.
ghost use Rattle.std.specs.Prelude.{◌≡◌, ◌≢◌, ◌≤◌, Err, IfSome, List, length, take, ℕ};
ghost use Rattle.mqb_capture.specs.Verdicts.{Says};
ghost use Rattle.mqb_capture.specs.declared.answers.TheConstants.{MAX_CAPTURE};
ghost use Rattle.mqb_inspect.specs.Saying.{EndsInput, ReadFaultHasCause, said_behind};

use crate::grammar::{read_head, read_piece};
use crate::input::{InputFault, read_most};
use crate::standing::Inspection;
use mqb_capture::{BreakCause, InspectFault, MAX_CAPTURE, Verdict};
use mqb_fields::Cursor;
use mqb_outside::Source;
use std::alloc::Global;

/// What is said where no piece stands behind lawful ones, as a place tells, and
/// these bytes are left.
fn said_behind(inspection: &Inspection, left: &[u8], place: usize) -> Result<Verdict, InspectFault>
    ensures { result ≡ said_behind inspection.now left.now place }
{
    if place as u64 >= MAX_CAPTURE {
        return Err(InspectFault::TooMuch);
    }
    if !left.is_empty() {
        return Err(InspectFault::Capture { at: place as u64 });
    }
    if inspection.holds_rest() {
        return Ok(Verdict::Broken {
            index: inspection.count(),
            cause: BreakCause::Cut,
        });
    }
    Ok(Verdict::Lawful {
        sent: inspection.sent_count,
        heard: inspection.heard_count,
    })
}

/// Inspects bytes, which are as many as are looked at, or fewer.
fn judge(alloc: Global, bytes: &[u8]) -> Result<Verdict, InspectFault>
    requires { length bytes.now ≤ MAX_CAPTURE }
    ensures says { (whole : List ℕ) → take MAX_CAPTURE whole ≡ bytes.now → Says whole result }
    ensures read { result ≢ Err InspectFault.ReadFault }
{
    let end = bytes.len();
    let mut cursor = Cursor::new(bytes);
    let head = match read_head(&mut cursor, end) {
        Ok(head) => head,
        Err(at) => return Err(InspectFault::Capture { at: at as u64 }),
    };
    let Ok(mut inspection) = Inspection::new(alloc, &head) else {
        return Err(InspectFault::Memory);
    };
    loop {
        let mut ahead = cursor.fork();
        let piece = match read_piece(&mut ahead, end) {
            Ok(piece) => piece,
            Err(place) => return said_behind(&inspection, cursor.rest(), place),
        };
        cursor = ahead;
        let Ok(found) = inspection.take_piece(alloc, piece.way, piece.bytes) else {
            return Err(InspectFault::Memory);
        };
        if let Some(cause) = found {
            return Ok(Verdict::Broken {
                index: inspection.count(),
                cause,
            });
        }
    }
}

/// Reads a capture, and says whether it is lawful. Of the input so many bytes are read as
/// are looked at, or all.
///
/// # Errors
/// `Capture`: the bytes stop being a capture at a place before which nothing breaks it. `TooMuch`:
/// there are too many, and nothing breaks those that were read. `ReadFault`: the input failed.
/// `Memory`: memory ran out.
pub fn inspect<S: Source>(alloc: Global, input: &mut S) -> Result<Verdict, InspectFault>
    ensures says { IfSome (S.held input.old) (λ bytes. Says bytes result) }
    ensures ended { EndsInput result (S.held input.new) }
    ensures cause { ReadFaultHasCause (S.read_faults input.old) (S.read_faults input.new) result }
{
    match read_most(alloc, input) {
        Ok(text) => judge(alloc, &text),
        Err(InputFault::Failed) => Err(InspectFault::ReadFault),
        Err(InputFault::Memory) => Err(InspectFault::Memory),
    }
}
