ghost use Rattle.std.specs.Prelude.{◌≡◌, IfOk, None};
ghost use Rattle.mqb_base.specs.Names.{name_fault};
ghost use Rattle.mqb_runs.specs.Hosts.{alpha, beta, hosts};

use mqb_base::{Guid, Identity, Memory, Name, NameError};
use std::alloc::Global;

const ALPHA: [u8; 16] = [
    0x0A, 0x0B, 0x0C, 0x0D, 0x11, 0x12, 0x13, 0x14, 0x15, 0x16, 0x17, 0x18, 0x19, 0x1A, 0x1B, 0x1C,
];

const BETA: [u8; 16] = [
    0x2A, 0x2B, 0x2C, 0x2D, 0x31, 0x32, 0x33, 0x34, 0x35, 0x36, 0x37, 0x38, 0x39, 0x3A, 0x3B, 0x3C,
];

fn host(alloc: Global, name: &[u8]) -> Result<Name, Memory>
    requires { name_fault name.now ≡ None }
    ensures { IfOk result (λ host. host ≡ name.now) }
{
    match Name::new(alloc, name) {
        Ok(host) => Ok(host),
        Err(NameError::Memory) => Err(Memory),
        Err(NameError::Length | NameError::Byte { .. }) => unreachable!(),
    }
}

pub(crate) fn alpha(alloc: Global) -> Result<Identity, Memory>
    ensures { IfOk result (λ identity. identity ≡ alpha) }
{
    Ok(Identity {
        host: host(alloc, b"alpha")?,
        guid: Guid(ALPHA),
        address: [10, 0, 0, 1],
    })
}

pub(crate) fn beta(alloc: Global) -> Result<Identity, Memory>
    ensures { IfOk result (λ identity. identity ≡ beta) }
{
    Ok(Identity {
        host: host(alloc, b"beta")?,
        guid: Guid(BETA),
        address: [10, 0, 0, 2],
    })
}

/// The two managers of a replay, alpha and beta.
pub fn hosts(alloc: Global) -> Result<Vec<Identity>, Memory>
    ensures { IfOk result (λ list. list.items ≡ hosts) }
{
    let mut hosts = Vec::new(alloc);
    hosts.push(alpha(alloc)?)?;
    hosts.push(beta(alloc)?)?;
    Ok(hosts)
}
