ghost use Rattle.std.specs.Prelude.{◌≡◌, ◌++◌, IsTrue, OnErr, OnOk};
ghost use Rattle.mqb_base.specs.QueueNames.{names_queue};
ghost use Rattle.mqb_entries.specs.Spelled.{spelled_flag, spelled_guid};
ghost use Rattle.mqb_entries.specs.Spelled.{spelled_name, spelled_public};
ghost use Rattle.mqb_fields.specs.Writing.{bytes_of};
ghost use Rattle.mqb_names.specs.Wire.{kind_of, wire};
ghost use Rattle.mqb_snapshot.specs.Spelled.{spelled_destination, word};

use crate::tail::{Tail, add_zeros};
use mqb_base::{Guid, Memory, Name, QueueName};
use mqb_names::{put_wire_name, wire_len};

/// The type of a name.
fn kind_of(name: &QueueName) -> u8
    ensures { result ≡ kind_of name.now }
{
    match name {
        QueueName::Public { .. } => 1,
        QueueName::Private { .. } => 2,
        QueueName::Direct { .. } => 3,
        QueueName::Machine { .. } => 0,
    }
}

fn put_wire(name: &QueueName, out: &mut Vec<u8>) -> Result<(), Memory>
    requires { IsTrue (names_queue name.now) }
    ensures put { OnOk result (out.new.items ≡ out.old.items ++ wire name.now) }
    ensures stays { OnErr result (out.new.items ≡ out.old.items) }
{
    let start = add_zeros(out, wire_len(name) as usize)?;
    put_wire_name(name, &mut out.as_mut_slice()[start..]);
    Ok(())
}

impl Tail {
    pub(crate) fn u8(&mut self, number: u8) -> Result<(), Memory>
        ensures added { OnOk result (self.new.text ≡ self.old.text ++ bytes_of 1 number) }
        ensures front { self.new.front ≡ self.old.front }
    {
        self.put(&[number])
    }

    pub(crate) fn u32(&mut self, number: u32) -> Result<(), Memory>
        ensures added { OnOk result (self.new.text ≡ self.old.text ++ word number) }
        ensures front { self.new.front ≡ self.old.front }
    {
        let mut field = [0; 4];
        mqb_fields::put_u32(&mut field, 0, number);
        self.put(&field)
    }

    pub(crate) fn guid(&mut self, guid: &Guid) -> Result<(), Memory>
        ensures added { OnOk result (self.new.text ≡ self.old.text ++ spelled_guid guid.now) }
        ensures front { self.new.front ≡ self.old.front }
    {
        let mut field = [0; 16];
        mqb_fields::put_guid(&mut field, 0, &guid.0);
        self.put(&field)
    }

    pub(crate) fn name(&mut self, name: &Name) -> Result<(), Memory>
        ensures added { OnOk result (self.new.text ≡ self.old.text ++ spelled_name name.now) }
        ensures front { self.new.front ≡ self.old.front }
    {
        let bytes = name.as_slice();
        self.u8(bytes.len() as u8)?;
        self.put(bytes)
    }

    pub(crate) fn flag(&mut self, flag: bool) -> Result<(), Memory>
        ensures added { OnOk result (self.new.text ≡ self.old.text ++ spelled_flag flag) }
        ensures front { self.new.front ≡ self.old.front }
    {
        self.u8(u8::from(flag))
    }

    /// A flag, and a GUID where there is one.
    pub(crate) fn public(&mut self, public: &Option<Guid>) -> Result<(), Memory>
        ensures added { OnOk result (self.new.text ≡ self.old.text ++ spelled_public public.now) }
        ensures front { self.new.front ≡ self.old.front }
    {
        match public {
            Some(guid) => {
                self.u8(1)?;
                self.guid(guid)?;
                Ok(())
            }
            None => self.u8(0),
        }
    }

    fn wire(&mut self, name: &QueueName) -> Result<(), Memory>
        requires { IsTrue (names_queue name.now) }
        ensures added { OnOk result (self.new.text ≡ self.old.text ++ wire name.now) }
        ensures front { self.new.front ≡ self.old.front }
    {
        put_wire(name, &mut self.bytes)
    }

    /// A queue's name in its wire form, behind its type.
    pub(crate) fn destination(&mut self, name: &QueueName) -> Result<(), Memory>
        requires { IsTrue (names_queue name.now) }
        ensures added { OnOk result (self.new.text ≡
            self.old.text ++ spelled_destination name.now) }
        ensures front { self.new.front ≡ self.old.front }
    {
        self.u8(kind_of(name))?;
        self.wire(name)
    }
}
