//! The headers of the packet in which a store has a message.

ghost use Rattle.std.specs.Prelude.{◌≡◌, ◌≤◌, ◌++◌, length, OnErr, OnOk};
ghost use Rattle.mqb_base.specs.Messages.{IsWellFormed};
ghost use Rattle.mqb_heads.specs.Base.{IsBaseHead, plain_base};
ghost use Rattle.mqb_heads.specs.Properties.{FitsProps, plain_props, props_size};
ghost use Rattle.mqb_heads.specs.User.{FitsUser, plain_user, user_size};
ghost use Rattle.mqb_snapshot.specs.declared.messages.TheConstants.{NOBODY};

use crate::messages::NOBODY;
use crate::tail::{Tail, add_zeros};
use mqb_base::{Memory, Message};
use mqb_heads::{BaseHead, props_len, put_base, put_props, put_user, user_len};

fn fill_user(message: &Message, to: &mut [u8])
    requires message { FitsUser message.now }
    requires room { length to.old ≡ user_size message.now }
    ensures { to.new ≡ plain_user message.now NOBODY }
{
    put_user(message, &NOBODY, to);
}

fn fill_props(message: &Message, to: &mut [u8])
    requires message { FitsProps message.now }
    requires room { length to.old ≡ props_size message.now }
    ensures { to.new ≡ plain_props message.now }
{
    put_props(message, to);
}

fn add_user(message: &Message, out: &mut Vec<u8>) -> Result<(), Memory>
    requires { FitsUser message.now }
    ensures put { OnOk result (out.new.items ≡ out.old.items ++ plain_user message.now NOBODY) }
    ensures stays { OnErr result (out.new.items ≡ out.old.items) }
{
    let start = add_zeros(out, user_len(message))?;
    fill_user(message, &mut out.as_mut_slice()[start..]);
    Ok(())
}

fn add_props(message: &Message, out: &mut Vec<u8>) -> Result<(), Memory>
    requires { FitsProps message.now }
    ensures put { OnOk result (out.new.items ≡ out.old.items ++ plain_props message.now) }
    ensures stays { OnErr result (out.new.items ≡ out.old.items) }
{
    let start = add_zeros(out, props_len(message))?;
    fill_props(message, &mut out.as_mut_slice()[start..]);
    Ok(())
}

impl Tail {
    pub(crate) fn base(&mut self, head: &BaseHead) -> Result<(), Memory>
        requires { IsBaseHead head.now }
        ensures added { OnOk result (self.new.text ≡ self.old.text ++ plain_base head.now) }
        ensures front { self.new.front ≡ self.old.front }
    {
        let mut bytes = [0; 16];
        put_base(head, &mut bytes);
        self.put(&bytes)
    }

    pub(crate) fn user(&mut self, message: &Message) -> Result<(), Memory>
        requires { FitsUser message.now }
        ensures added { OnOk result (self.new.text ≡
            self.old.text ++ plain_user message.now NOBODY) }
        ensures front { self.new.front ≡ self.old.front }
    {
        add_user(message, &mut self.bytes)?;
        Ok(())
    }

    pub(crate) fn props(&mut self, message: &Message) -> Result<(), Memory>
        requires { FitsProps message.now }
        ensures added { OnOk result (self.new.text ≡ self.old.text ++ plain_props message.now) }
        ensures front { self.new.front ≡ self.old.front }
    {
        add_props(message, &mut self.bytes)
    }
}
