ghost use Rattle.std.specs.Prelude.{◌≡◌, ◌++◌, length, replicate, IfOk, OnOk, OnErr};
ghost use Rattle.mqb_names.specs.Printed.{printed, printed_guid};

use crate::printed_lengths::printed_len;
use crate::texts::{put_guid, put_name};
use mqb_base::{Guid, Memory, QueueName};

/// The characters of a GUID.
const GUID_LEN: u32 = 36;

/// Appends zeros, and tells where they start.
fn put_room(out: &mut Vec<u8>, len: u32) -> Result<usize, Memory>
    ensures room { OnOk result (out.new.items ≡ out.old.items ++ replicate len 0) }
    ensures start { IfOk result (λ start. start ≡ length out.old.items) }
    ensures stays { OnErr result (out.new.items ≡ out.old.items) }
{
    let start = out.len();
    out.resize(start + len as usize, 0)?;
    Ok(start)
}

fn fill_guid(guid: Guid, to: &mut [u8])
    requires { length to.old ≡ 36 }
    ensures { to.new ≡ printed_guid guid }
{
    put_guid(to, 0, guid);
}

fn fill_name(name: &QueueName, to: &mut [u8])
    requires { length to.old ≡ length (printed name.now) }
    ensures { to.new ≡ printed name.now }
{
    put_name(to, 0, name);
}

/// Appends a GUID as it is printed: 36 characters, hyphenated, in lower case. After a
/// refusal `out` is as before.
pub fn write_guid(guid: &Guid, out: &mut Vec<u8>) -> Result<(), Memory>
    ensures ok { OnOk result (out.new.items ≡ out.old.items ++ printed_guid guid.now) }
    ensures err { OnErr result (out.new.items ≡ out.old.items) }
{
    let start = put_room(out, GUID_LEN)?;
    fill_guid(*guid, &mut out.as_mut_slice()[start..]);
    Ok(())
}

/// Appends the one printed form of a name. After a refusal `out` is as before.
pub fn write_name(name: &QueueName, out: &mut Vec<u8>) -> Result<(), Memory>
    ensures ok { OnOk result (out.new.items ≡ out.old.items ++ printed name.now) }
    ensures err { OnErr result (out.new.items ≡ out.old.items) }
{
    let start = put_room(out, printed_len(name) as u32)?;
    fill_name(name, &mut out.as_mut_slice()[start..]);
    Ok(())
}
