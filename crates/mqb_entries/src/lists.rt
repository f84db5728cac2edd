ghost use Rattle.std.specs.Prelude.{◌≡◌, ◌+◌, ◌^◌, ◌<◌, ◌≤◌, [], ◌∷◌, ◌++◌, length, IfOk, MatchOption};
ghost use Rattle.std.specs.Iterator.{YieldsFirst, item_count};
ghost use Rattle.std.specs.List.{flat_map, AllByRecursion};
ghost use Rattle.mqb_fields.specs.Reading.{Moves, Reads};
ghost use Rattle.mqb_entries.specs.Lists.{many, passed};
ghost use Rattle.mqb_entries.specs.Writing.{room_of};
ghost use Rattle.mqb_entries.specs.declared.limits.TheConstants.{MAX_LISTED};

use crate::faults::EntryFault;
use crate::members::{Mark, Member, OpView, ReadMember};
use crate::puts::put;
use mqb_fields::Cursor;
use std::marker::Model;

/// The ops of a commit.
pub type Ops<'a> = MemberList<'a, OpView<'a>>;

/// Marks up to which sequences were offered.
pub type Marks<'a> = MemberList<'a, Mark>;

/// Numbers of messages.
pub type Numbers<'a> = MemberList<'a, u32>;

/// A list as it stands in a record, or as values that are going to stand in one.
#[derive(Debug, Drop)]
enum Form<'a, M> {
    Spelled { bytes: &'a [u8], count: u16 },
    Values(&'a [M]),
}

/// A list of at most `MAX_LISTED` members. Contracts see the list. As an iterator it gives its members; nothing here takes memory.
#[derive(Debug, Drop)]
pub struct MemberList<'a, M: Member> {
    form: Form<'a, M>,
}

impl<'a, M: Member> Model for MemberList<'a, M> {
    ghost use Rattle.std.specs.Prelude.{List};

    ghost Value = { List M };

    ghost use Rattle.mqb_entries.specs.Forms.{listed, IsList};

    ghost view = { λ l. listed M.member_at l.form };

    ghost invariant = { λ l. IsList M.member_at M.spelled M.fits l.form };
}

fn pass_all<'a, M: ReadMember<'a>>(cursor: &mut Cursor<'a>, count: u16) -> Result<(), EntryFault>
    ensures { Moves (passed M.member_at count) cursor.old cursor.new result }
{
    for _ in 0..count {
        M::read(cursor)?;
    }
    Ok(())
}

fn len_of(bytes: &[u8]) -> usize
    ensures len { result ≡ length bytes.now }
    ensures bound { result < 2 ^ 63 }
{
    bytes.len()
}

fn len_of_all<M: Member>(members: &[M]) -> usize
    requires { length members.now ≤ MAX_LISTED }
    ensures len { result ≡ length (flat_map M.spelled members.now) }
    ensures bound { result < 2 ^ 49 }
{
    let mut len = 0;
    for member in members {
        len += member.spelled_len();
    }
    len
}

fn put_all<M: Member>(members: &[M], out: &mut Vec<u8>)
    requires { length (flat_map M.spelled members.now) ≤ room_of out.old }
    ensures items { out.new.items ≡ out.old.items ++ flat_map M.spelled members.now }
    ensures room { room_of out.old ≤ length (flat_map M.spelled members.now) + room_of out.new }
    ensures fits { AllByRecursion M.fits members.now }
{
    for member in members {
        member.put(out);
    }
}

impl<'a, M: Member> MemberList<'a, M> {
    /// The list of these members.
    pub fn of(members: &'a [M]) -> MemberList<'a, M>
        requires { length members.now ≤ MAX_LISTED }
        ensures { result ≡ members.now }
    {
        MemberList {
            form: Form::Values(members),
        }
    }

    pub fn len(&self) -> u16
        ensures { result ≡ length self.now }
    {
        match self.form {
            Form::Spelled { count, .. } => count,
            Form::Values(members) => members.len() as u16,
        }
    }

    /// The same list, to be walked.
    pub fn iter(&self) -> MemberList<'a, M>
        ensures { result ≡ self.now }
    {
        let form = match self.form {
            Form::Spelled { bytes, count } => Form::Spelled { bytes, count },
            Form::Values(members) => Form::Values(members),
        };
        MemberList { form }
    }

    /// How many bytes the members are.
    pub(crate) fn spelled_len(&self) -> usize
        ensures len { result ≡ length (flat_map M.spelled self.now) }
        ensures bound { result < 2 ^ 63 }
    {
        match self.form {
            Form::Spelled { bytes, .. } => len_of(bytes),
            Form::Values(members) => len_of_all(members),
        }
    }

    /// Adds the members' bytes, for which there is room.
    pub(crate) fn put(&self, out: &mut Vec<u8>)
        requires { length (flat_map M.spelled self.now) ≤ room_of out.old }
        ensures items { out.new.items ≡ out.old.items ++ flat_map M.spelled self.now }
        ensures room { room_of out.old ≤ length (flat_map M.spelled self.now) + room_of out.new }
        ensures fits { AllByRecursion M.fits self.now }
    {
        match self.form {
            Form::Spelled { bytes, .. } => put(out, bytes),
            Form::Values(members) => put_all(members, out),
        }
    }
}

impl<'a, M: ReadMember<'a>> MemberList<'a, M> {
    /// So many members.
    pub(crate) fn read(cursor: &mut Cursor<'a>, count: u16) -> Result<MemberList<'a, M>, EntryFault>
        ensures { Reads (many M.member_at count) cursor.old cursor.new result }
    {
        let start = cursor.at();
        let rest = cursor.rest();
        pass_all::<M>(cursor, count)?;
        let bytes = &rest[..cursor.at() - start];
        Ok(MemberList {
            form: Form::Spelled { bytes, count },
        })
    }

    /// The first member, and the others.
    pub fn split_first(&self) -> Option<(M, MemberList<'a, M>)>
        ensures { MatchOption result (self.now ≡ []) (λ split. self.now ≡ split.0 ∷ split.1) }
    {
        match self.form {
            Form::Spelled { bytes, count } => {
                if count == 0 {
                    return None;
                }
                let mut cursor = Cursor::new(bytes);
                match M::read(&mut cursor) {
                    Ok(first) => {
                        let form = Form::Spelled {
                            bytes: cursor.rest(),
                            count: count - 1,
                        };
                        Some((first, MemberList { form }))
                    }
                    Err(_) => None,
                }
            }
            Form::Values(members) => {
                let (first, others) = members.split_first()?;
                let form = Form::Values(others);
                Some((first.again(), MemberList { form }))
            }
        }
    }
}

impl<'a, M: ReadMember<'a>> Iterator for MemberList<'a, M> {
    type Item = M;

    ghost next_gives = { YieldsFirst (λ members. members) };

    ghost remaining = { item_count (λ members. members) };

    fn next(&mut self) -> Option<M> {
        let (first, others) = self.split_first()?;
        *self = others;
        Some(first)
    }
}
