ghost use Rattle.std.specs.Prelude.{◌≡◌, ◌≤◌, length, IfOk, IfErr};
ghost use Rattle.mqb_picture.specs.Faults.{IsFaultOf};
ghost use Rattle.mqb_picture.specs.Input.{LONGEST};
ghost use Rattle.mqb_picture.specs.Outputs.{LARGEST, svg_made, fault_text};
ghost use Rattle.mqb_picture.specs.Runs.{exit_of, Tells, TellsKind, Draws, Completes};
ghost use Rattle.mqb_picture.specs.Runs.{ReadFaultHasCause, WriteFaultHasCause, IsPlain};
ghost use Rattle.mqb_picture.specs.declared.run.Status.TheVariants as status;

use crate::faults::{Fault, Kind};
use crate::input::{InputFault, read_all};
use crate::output::write_all;
use crate::reading::read_picture;
use crate::words::around;
use mqb_base::Memory;
use mqb_outside::{Sink, Source};
use mqb_svg::{MAX_ELEMENTS, Page, draw};
use std::alloc::Global;

/// How the program ended.
#[derive(Clone, Copy)]
pub enum Status {
    /// The picture was written.
    Done,
    /// The input has no picture.
    Input(Kind),
    /// The input failed.
    ReadFault,
    /// The output failed.
    WriteFault,
    /// Memory ran out.
    Memory,
}

impl Status {
    /// The exit status of the program.
    pub fn exit(self) -> u8
        ensures { result ≡ exit_of self }
    {
        match self {
            Status::Done => 0,
            Status::Input(_) => 3,
            Status::ReadFault => 4,
            Status::WriteFault => 5,
            Status::Memory => 10,
        }
    }
}

/// The greatest length of the text of a picture.
const MAX_LENGTH: usize = 1_048_576;

/// The text of an input's picture.
#[tactic(auto, unfolding(crate::specs::Outputs::svg_made, crate::specs::Outputs::svg_within))]
fn svg_made(alloc: Global, text: &[u8]) -> Result<Page, Fault>
    ensures ok { IfOk result (λ page. svg_made text.now ≡ Ok page) }
    ensures small { IfOk result (λ page. length page ≤ LARGEST) }
    ensures err { IfErr result (IsFaultOf (svg_made text.now)) }
{
    let picture = read_picture(alloc, text)?;
    let elements = picture.elements();
    if elements.len() > MAX_ELEMENTS {
        return Err(Fault::Input(Kind::TooLarge));
    }
    let page = draw(alloc, elements)?;
    if page.as_slice().len() > MAX_LENGTH {
        return Err(Fault::Input(Kind::TooLarge));
    }
    Ok(page)
}

fn fault_text(alloc: Global, kind: Kind) -> Result<Vec<u8>, Memory>
    ensures { IfOk result (λ text. text.items ≡ fault_text kind) }
{
    let text: &[u8] = match kind {
        Kind::Line { number } => return around(alloc, b"fault: line ", number, b"\n"),
        Kind::TooLong => b"fault: toolong\n",
        Kind::NoTranscript => b"fault: notranscript\n",
        Kind::NoEnd => b"fault: noend\n",
        Kind::TooLarge => b"fault: toolarge\n",
    };
    Ok(Vec::from_slice(alloc, text)?)
}

/// Writes a text, and ends so.
fn tell<K: Sink>(out: &mut K, text: &[u8], end: Status) -> Status
    requires { IsPlain end }
    ensures told { Tells text.now end (K.taken out.old) (K.taken out.new) result }
    ensures cause { WriteFaultHasCause (K.write_faults out.old) (K.write_faults out.new) result }
{
    match write_all(out, text) {
        Ok(()) => end,
        Err(_) => Status::WriteFault,
    }
}

/// Writes the fault line of an input that has no picture.
fn tell_kind<K: Sink>(alloc: Global, out: &mut K, kind: Kind) -> Status
    ensures told { TellsKind kind (K.taken out.old) (K.taken out.new) result }
    ensures cause { WriteFaultHasCause (K.write_faults out.old) (K.write_faults out.new) result }
{
    match fault_text(alloc, kind) {
        Ok(text) => tell(out, &text, Status::Input(kind)),
        Err(_) => Status::Memory,
    }
}

/// Writes the picture of an input, or why it has none.
pub fn run<S: Source, K: Sink>(alloc: Global, input: &mut S, out: &mut K) -> Status
    // What is read and written.
    ensures draws { Draws (S.held input.old) (S.held input.new) (K.taken out.old) (K.taken out.new)
        result }
    // Each input is answered, where neither the input nor the output fails and memory is left.
    ensures complete { Completes (S.held input.old) (S.read_faults input.old)
        (S.read_faults input.new) (K.write_faults out.old) (K.write_faults out.new) result }
    // Where each fault comes from.
    ensures read_fault { ReadFaultHasCause (S.read_faults input.old) (S.read_faults input.new)
        result }
    ensures write_fault { WriteFaultHasCause (K.write_faults out.old) (K.write_faults out.new)
        result }
{
    let text = match read_all(alloc, input) {
        Ok(text) => text,
        Err(InputFault::TooLong) => return tell_kind(alloc, out, Kind::TooLong),
        Err(InputFault::Failed) => return tell(out, b"fault: readfault\n", Status::ReadFault),
        Err(InputFault::Memory) => return Status::Memory,
    };
    match svg_made(alloc, &text) {
        Ok(page) => tell(out, page.as_slice(), Status::Done),
        Err(Fault::Input(kind)) => tell_kind(alloc, out, kind),
        Err(Fault::Memory) => Status::Memory,
    }
}
