ghost use Rattle.std.specs.Prelude.{◌≡◌, ◌+◌, ◌^◌, ◌<◌, ◌≤◌, ◌++◌, length};
ghost use Rattle.mqb_packet.specs.Spelled.{IsLent};
ghost use Rattle.mqb_packet.specs.declared.lent.PacketView.TheVariants as lent;
ghost use Rattle.mqb_entries.specs.Packets.{CanTell, IsShown, shown, told};
ghost use Rattle.mqb_entries.specs.Writing.{room_of};

use crate::puts::put;
use mqb_base::{Guid, Message};
use mqb_packet::{Carriage, Headers, PutFault, UserView, message_size, plain_size, put_message};
use std::marker::Model;

/// How a packet is given: by its bytes, by what was read of them, or as a message that a record tells of, with the manager to which it goes and the count
/// of the bytes.
#[derive(Debug, Drop)]
pub enum PacketForm<'a> {
    Spelled(&'a [u8]),
    Heard(&'a UserView<'a>),
    Message {
        message: &'a Message,
        to: Guid,
        size: u32,
    },
}

/// A packet, of fewer than 2^32 bytes, which are not read here. Contracts see the bytes. A message is spelled where the entry is put, and nowhere else.
#[derive(Debug, Drop)]
pub struct PacketSlice<'a> {
    form: PacketForm<'a>,
}

impl<'a> Model for PacketSlice<'a> {
    ghost use Rattle.std.specs.Prelude.{ℕ, List};
    ghost use Rattle.mqb_entries.specs.Packets.{shown, IsShown};

    ghost Value = { List ℕ };

    ghost view = { λ p. shown p.form };

    ghost invariant = { λ p. IsShown p.form };
}

/// How many bytes tell of a message.
fn told_len(message: &Message, to: &Guid) -> u32
    requires { CanTell message.now }
    ensures len { result ≡ length (told message.now to.now) }
{
    plain_size();
    match message_size(message, Headers::Bare) {
        Ok(size) => size,
        Err(_) => unreachable!(),
    }
}

/// Adds the bytes that tell of a message, for which there is room.
#[tactic(auto, unfolding(crate::specs::Writing::room_of))]
fn put_told(out: &mut Vec<u8>, message: &Message, to: Guid)
    requires message { CanTell message.now }
    requires room { length (told message.now to) ≤ room_of out.old }
    ensures items { out.new.items ≡ out.old.items ++ told message.now to }
    ensures room { room_of out.old ≤ length (told message.now to) + room_of out.new }
{
    plain_size();
    let carriage = Carriage {
        to,
        remaining: message.reach,
        tx: None,
        session: None,
    };
    match put_message(message, &carriage, out) {
        Ok(()) => {}
        Err(PutFault::Memory) => unreachable!(),
        Err(PutFault::TooLarge) => unreachable!(),
    }
}

impl<'a> PacketSlice<'a> {
    pub fn new(bytes: &'a [u8]) -> PacketSlice<'a>
        requires { length bytes.now < 2 ^ 32 }
        ensures { result ≡ bytes.now }
    {
        PacketSlice {
            form: PacketForm::Spelled(bytes),
        }
    }

    /// A packet that was read, and is kept as it was heard.
    pub fn of_heard(view: &'a UserView<'a>) -> PacketSlice<'a>
        requires lent { IsLent (lent.User view.now) }
        requires size { length view.now.whole.now < 2 ^ 32 }
        ensures { result ≡ view.now.whole.now }
    {
        PacketSlice {
            form: PacketForm::Heard(view),
        }
    }

    /// The packet by which a record tells of a message that goes to a manager. Nothing is spelled yet.
    pub fn of_message(message: &'a Message, to: Guid) -> PacketSlice<'a>
        requires { CanTell message.now }
        ensures { result ≡ told message.now to }
    {
        let size = told_len(message, &to);
        PacketSlice {
            form: PacketForm::Message { message, to, size },
        }
    }

    /// How it is given.
    pub fn form(&self) -> &PacketForm<'a>
        ensures shown { shown result.now ≡ self.now }
        ensures fits { IsShown result.now }
    {
        &self.form
    }

    /// The same packet.
    pub fn again(&self) -> PacketSlice<'a>
        ensures { result ≡ self.now }
    {
        let form = match self.form {
            PacketForm::Spelled(bytes) => PacketForm::Spelled(bytes),
            PacketForm::Heard(view) => PacketForm::Heard(view),
            PacketForm::Message { message, to, size } => PacketForm::Message { message, to, size },
        };
        PacketSlice { form }
    }

    /// How many bytes it has.
    pub fn len(&self) -> usize
        ensures len { result ≡ length self.now }
        ensures bound { result < 2 ^ 32 }
    {
        match self.form {
            PacketForm::Spelled(bytes) => bytes.len(),
            PacketForm::Heard(view) => view.whole.len(),
            PacketForm::Message { size, .. } => size as usize,
        }
    }

    /// Adds its bytes, for which there is room.
    pub(crate) fn put(&self, out: &mut Vec<u8>)
        requires { length self.now ≤ room_of out.old }
        ensures items { out.new.items ≡ out.old.items ++ self.now }
        ensures room { room_of out.old ≤ length self.now + room_of out.new }
    {
        match self.form {
            PacketForm::Spelled(bytes) => put(out, bytes),
            PacketForm::Heard(view) => put(out, view.whole),
            PacketForm::Message { message, to, .. } => put_told(out, message, to),
        }
    }
}
