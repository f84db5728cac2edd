ghost use Rattle.std.specs.Prelude.{◌≡◌, ◌≢◌, ◌⊎◌, []};
ghost use Rattle.mqb_commands.specs.Outputs.{IsFaultLine, IsPlain, Tells, WriteFaultHasCause};

use crate::faults::append_fault;
use crate::output::tell;
use crate::status::Status;
use mqb_base::Memory;
use mqb_outside::Sink;
use std::alloc::Global;

/// What a command says, and how it ends where that is written.
#[derive(Debug, Drop)]
pub struct Answer {
    pub text: Vec<u8>,
    pub end: Status,
}

impl Answer {
    pub fn new(text: Vec<u8>, end: Status) -> Answer
        ensures text { result.text ≡ text }
        ensures end { result.end ≡ end }
    {
        Answer { text, end }
    }

    /// Memory ran out.
    pub fn memory(alloc: Global) -> Answer
        ensures text { result.text.items ≡ [] }
        ensures end { result.end ≡ Status.Memory }
    {
        Answer::new(Vec::new(alloc), Status::Memory)
    }

    /// A fault and its line.
    pub fn fault(alloc: Global, fault: Status) -> Answer
        ensures { IsFaultLine fault result.text.items result.end }
    {
        let mut text = Vec::new(alloc);
        match append_fault(alloc, fault, &mut text) {
            Ok(()) => Answer::new(text, fault),
            Err(Memory) => Answer::memory(alloc),
        }
    }

    /// Writes it.
    pub fn write<K: Sink>(&self, out: &mut K) -> Status
        requires { IsPlain self.now.end }
        ensures told { Tells self.now.text.items self.now.end (K.taken out.old) (K.taken out.new)
            result }
        ensures some { self.now.text.items ≡ [] → result ≡ self.now.end }
        ensures cause { WriteFaultHasCause (K.write_faults out.old) (K.write_faults out.new)
            result }
        ensures quiet { result ≢ Status.WriteFault →
            K.write_faults out.new ≡ K.write_faults out.old }
    {
        tell(out, &self.text, self.end)
    }
}
