ghost use Rattle.std.specs.Prelude.{[], ◌≡◌, ◌≢◌, OnOk, OnErr};
ghost use Rattle.mqb_outside.specs.Faults.{HasCause};
ghost use Rattle.mqb_outside.specs.Told.{Took};
ghost use Rattle.mqb_commands.specs.Outputs.{IsPlain, Tells, TookFront, WriteFaultHasCause};

use crate::status::Status;
use mqb_base::Failed;
use mqb_outside::Sink;

/// Writes a text whole. After a fault a front of it was taken.
pub fn write_all<K: Sink>(out: &mut K, text: &[u8]) -> Result<(), Failed>
    ensures whole { OnOk result (Took (K.taken out.old) (K.taken out.new) text.now) }
    ensures front { OnErr result (TookFront (K.taken out.old) (K.taken out.new) text.now) }
    ensures cause { HasCause (K.write_faults out.old) (K.write_faults out.new) result }
    ensures some { OnErr result (text.now ≢ []) }
{
    let mut rest = text;
    while !rest.is_empty() {
        let n = out.write(rest)?;
        (_, rest) = rest.split_at(n);
    }
    Ok(())
}

/// Writes a text, and ends so.
#[tactic(auto, using(crate::specs::lemmas::Taking::plain_cause))]
pub fn tell<K: Sink>(out: &mut K, text: &[u8], end: Status) -> Status
    requires { IsPlain end }
    ensures told { Tells text.now end (K.taken out.old) (K.taken out.new) result }
    ensures some { text.now ≡ [] → result ≡ end }
    ensures cause { WriteFaultHasCause (K.write_faults out.old) (K.write_faults out.new) result }
    ensures quiet { result ≢ Status.WriteFault →
        K.write_faults out.new ≡ K.write_faults out.old }
{
    match write_all(out, text) {
        Ok(()) => end,
        Err(_) => Status::WriteFault,
    }
}
