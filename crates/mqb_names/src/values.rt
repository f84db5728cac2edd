//! What holds of each name that a program has, and of its parts, by their types. Each function
//! only says it.
ghost use Rattle.std.specs.Prelude.{◌<◌, ◌^◌, All, IfSome};
ghost use Rattle.mqb_names.specs.Values.{AreBytes, IsHost, IsName, IsQueueName};

use mqb_base::{Guid, Host, Name, QueueName};

/// Each byte is below 256.
pub fn bytes_fit(bytes: &[u8])
    ensures { All (λ b. b < 256) bytes.now }
{}

/// A number of four bytes is below 2^32.
pub fn word_fits(word: u32)
    ensures { word < 2 ^ 32 }
{}

/// Each unit of a text is below 2^16.
pub fn units_fit(units: &[u16])
    ensures { All (λ unit. unit < 2 ^ 16) units.now }
{}

/// A GUID has 16 bytes.
pub fn guid_fits(guid: &Guid)
    ensures { AreBytes 16 guid.now.0 }
{
    bytes_fit(&guid.0);
}

/// A name is neither empty nor too long, and each of its bytes is one that a name may have.
pub fn name_fits(name: &Name)
    ensures { IsName name.now }
{
    name.as_slice();
}

/// A host is a name, or an address of four bytes.
pub fn host_fits(host: &Host)
    ensures { IsHost host.now }
{
    match host {
        Host::Os(name) => name_fits(name),
        Host::Tcp(address) => bytes_fit(address),
    }
}

/// The GUID and the number of a queue's name are within their widths, and its texts are names.
pub fn queue_fits(name: &QueueName)
    ensures { IsQueueName name.now }
{
    match name {
        QueueName::Public { guid, .. } => guid_fits(guid),
        QueueName::Private { qm, number, .. } => {
            let _number = *number;
            guid_fits(qm);
        }
        QueueName::Direct { host, queue, .. } => {
            host_fits(host);
            name_fits(queue);
        }
        QueueName::Machine { qm, .. } => guid_fits(qm),
    }
}

/// So it is with a queue's name that may be there.
pub fn queue_fits_if(name: &Option<QueueName>)
    ensures { IfSome name.now IsQueueName }
{
    if let Some(name) = name {
        queue_fits(name);
    }
}
