ghost use Rattle.std.specs.Prelude.{OnOk, OnErr};
ghost use Rattle.mqb_outside.specs.Faults.{HasCause};
ghost use Rattle.mqb_outside.specs.Told.{Took};
ghost use Rattle.mqb_inspect.specs.Outputs.{TookFront};

use mqb_base::Failed;
use mqb_outside::Sink;

/// Writes a text whole. After a fault a front of it was taken.
pub fn write_all<K: Sink>(out: &mut K, text: &[u8]) -> Result<(), Failed>
    ensures whole { OnOk result (Took (K.taken out.old) (K.taken out.new) text.now) }
    ensures front { OnErr result (TookFront (K.taken out.old) (K.taken out.new) text.now) }
    ensures cause { HasCause (K.write_faults out.old) (K.write_faults out.new) result }
{
    let mut rest = text;
    while !rest.is_empty() {
        let n = out.write(rest)?;
        (_, rest) = rest.split_at(n);
    }
    Ok(())
}
