ghost use Rattle.std.specs.Prelude.{◌≡◌, ◌≤◌, OnErr, ◌<◌, ◌+◌, ◌^◌, length};
ghost use Rattle.mqb_fields.specs.Reading.{Reads, ReadsAs};
ghost use Rattle.mqb_fields.specs.Writing.{Wrote, put_at};
ghost use Rattle.mqb_heads.specs.User.{FitsUser, flags_of, have_types, names_at, plain_user};
ghost use Rattle.mqb_heads.specs.User.{seen_names, seen_user, user_at, user_fields, user_flags};
ghost use Rattle.mqb_heads.specs.User.{user_flags_at, user_names, user_size};

use crate::fields::{padding, read_guid, read_name, read_optional_name, skip_padding};
use crate::flags::{bit, bits, flag, placed};
use crate::writing::{
    kind_of, kind_or_none, len_or_none, put_guid, put_name, put_optional_name, put_word, put_zeros,
};
use mqb_base::{Delivery, Guid, Message};
use mqb_fields::{Cursor, HeadFault, HeadKind};
use mqb_names::{NameView, wire_len};

/// The user header. `life` is the seconds from `sent` on within which the message is to be
/// received, and `number` that of the message at its source. `transaction` says that a transaction
/// header follows. Bits of `journal`: 1 dead letter, 2 journal.
#[derive(Clone, Copy, Debug)]
pub struct UserHead<'a> {
    pub source: Guid,
    /// The manager to which the packet goes.
    pub target: Guid,
    pub life: u32,
    pub sent: u32,
    pub number: u32,
    pub recoverable: bool,
    pub transaction: bool,
    pub journal: u8,
    pub destination: NameView<'a>,
    pub admin: Option<NameView<'a>>,
    pub response: Option<NameView<'a>>,
}

/// The flags of a user header, with the types of its names.
#[derive(Clone, Copy)]
struct UserFlags {
    recoverable: bool,
    transaction: bool,
    destination: u8,
    admin: u8,
    response: u8,
    journal: u8,
}

impl UserFlags {
    fn of(word: u32) -> UserFlags
        ensures { result ≡ flags_of word }
    {
        let transaction = bit(word, 1);
        UserFlags {
            recoverable: bit(word, 0) || transaction,
            transaction,
            destination: bits(word, 2, 3),
            admin: bits(word, 5, 3),
            response: bits(word, 8, 3),
            journal: bits(word, 11, 2),
        }
    }

    fn have_types(&self) -> bool
        ensures { result ≡ have_types self.now }
    {
        (1..=3).contains(&self.destination) && self.admin <= 3 && self.response <= 3
    }
}

fn read_flags(cursor: &mut Cursor<'_>) -> Result<UserFlags, HeadFault>
    ensures read { Reads user_flags_at cursor.old cursor.new result }
{
    let at = cursor.at();
    let word = cursor.u32()?;
    let flags = UserFlags::of(word);
    if bit(word, 13) {
        return Err(HeadFault::new(at, HeadKind::Secured));
    }
    if !flags.have_types() {
        return Err(HeadFault::new(at, HeadKind::Name));
    }
    Ok(flags)
}

#[derive(Clone, Copy)]
struct Names<'a> {
    destination: NameView<'a>,
    admin: Option<NameView<'a>>,
    response: Option<NameView<'a>>,
}

fn read_names<'a>(cursor: &mut Cursor<'a>, flags: &UserFlags) -> Result<Names<'a>, HeadFault>
    ensures read { ReadsAs seen_names (names_at flags.now) cursor.old cursor.new result }
{
    let destination = read_name(cursor, flags.destination)?;
    let admin = read_optional_name(cursor, flags.admin)?;
    let response = read_optional_name(cursor, flags.response)?;
    Ok(Names {
        destination,
        admin,
        response,
    })
}

/// Reads a user header, and lends its names. After a fault the cursor is where it was.
#[tactic(auto, unfolding(crate::specs::User::user_at))]
pub fn read_user<'a>(cursor: &mut Cursor<'a>) -> Result<UserHead<'a>, HeadFault>
    ensures read { ReadsAs seen_user user_at cursor.old cursor.new result }
    ensures stays { OnErr result (cursor.new ≡ cursor.old) }
{
    let mut ahead = cursor.fork();
    let source = read_guid(&mut ahead)?;
    let target = read_guid(&mut ahead)?;
    let life = ahead.u32()?;
    let sent = ahead.u32()?;
    let number = ahead.u32()?;
    let flags = read_flags(&mut ahead)?;
    let names = read_names(&mut ahead, &flags)?;
    skip_padding(&mut ahead, cursor.at())?;
    *cursor = ahead;
    Ok(UserHead {
        source,
        target,
        life,
        sent,
        number,
        recoverable: flags.recoverable,
        transaction: flags.transaction,
        journal: flags.journal,
        destination: names.destination,
        admin: names.admin,
        response: names.response,
    })
}

fn user_flags(message: &Message) -> u32
    ensures { result ≡ user_flags message.now }
{
    flag(0, !matches!(message.delivery, Delivery::Express))
        + flag(1, matches!(message.delivery, Delivery::Transactional))
        + placed(2, kind_of(&message.destination))
        + placed(5, kind_or_none(&message.admin))
        + placed(8, kind_or_none(&message.response))
        + placed(11, message.journal)
}

fn put_fields(message: &Message, target: &Guid, to: &mut [u8]) -> usize
    requires { 48 ≤ length to.old }
    ensures { Wrote to.old 0 (user_fields message.now target.now) to.new result }
{
    let to_target = put_guid(to, 0, &message.id.qm);
    let life = put_guid(to, to_target, target);
    let sent = put_word(to, life, message.life);
    let number = put_word(to, sent, message.sent);
    let flags = put_word(to, number, message.id.number);
    put_word(to, flags, user_flags(message))
}

fn put_names(message: &Message, to: &mut [u8], at: usize) -> usize
    requires message { FitsUser message.now }
    requires room { at + length (user_names message.now) ≤ length to.old }
    ensures { Wrote to.old at (user_names message.now) to.new result }
{
    let admin = put_name(to, at, &message.destination);
    let response = put_optional_name(to, admin, &message.admin);
    put_optional_name(to, response, &message.response)
}

fn put_padded(message: &Message, target: &Guid, to: &mut [u8]) -> usize
    requires message { FitsUser message.now }
    requires room { user_size message.now ≤ length to.old }
    ensures { Wrote to.old 0 (plain_user message.now target.now) to.new result }
{
    let names = put_fields(message, target, to);
    let end = put_names(message, to, names);
    put_zeros(to, end, padding(end))
}

/// How many bytes the user header of a message has, to whichever manager it goes.
pub fn user_len(message: &Message) -> usize
    requires { FitsUser message.now }
    ensures size { result ≡ user_size message.now }
    ensures most { result < 2 ^ 34 }
{
    let names = wire_len(&message.destination) as usize
        + len_or_none(&message.admin)
        + len_or_none(&message.response);
    let len = 48 + names;
    len + padding(len)
}

/// Writes the user header of a message to the manager `target` at the start of a buffer, and tells
/// how many bytes it has.
pub fn put_user(message: &Message, target: &Guid, to: &mut [u8]) -> usize
    requires message { FitsUser message.now }
    requires room { user_size message.now ≤ length to.old }
    ensures put { to.new ≡ put_at to.old 0 (plain_user message.now target.now) }
    ensures len { result ≡ length (plain_user message.now target.now) }
{
    put_padded(message, target, to)
}
