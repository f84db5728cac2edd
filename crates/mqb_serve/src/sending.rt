ghost use Rattle.std.specs.Prelude.{◌≡◌, OnOk, OnErr};
ghost use Rattle.mqb_outside.specs.Faults.{HasCause};
ghost use Rattle.mqb_outside.specs.Told.{Took};
ghost use Rattle.mqb_serving.specs.Steps.{TookFront};

use mqb_base::Failed;
use mqb_outside::Conn;

/// Sends bytes whole. After a fault a front of them was sent.
pub(crate) fn send_all<C: Conn>(conn: &mut C, bytes: &[u8]) -> Result<(), Failed>
    ensures whole { OnOk result (Took (C.taken conn.old) (C.taken conn.new) bytes.now) }
    ensures front { OnErr result (TookFront (C.taken conn.old) (C.taken conn.new) bytes.now) }
    ensures cause { HasCause (C.write_faults conn.old) (C.write_faults conn.new) result }
    ensures held { C.held conn.new ≡ C.held conn.old }
    ensures read_faults { C.read_faults conn.new ≡ C.read_faults conn.old }
    ensures given { C.given conn.new ≡ C.given conn.old }
    ensures address { C.address conn.new ≡ C.address conn.old }
    ensures lent { C.lent conn.new ≡ C.lent conn.old }
{
    let mut rest = bytes;
    while !rest.is_empty() {
        let n = conn.send(rest)?;
        (_, rest) = rest.split_at(n);
    }
    Ok(())
}
