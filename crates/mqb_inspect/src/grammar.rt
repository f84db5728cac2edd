//! The bytes of a capture: its head, and its pieces.
ghost use Rattle.std.specs.Prelude.{◌≡◌, ◌∷◌, [], length, OnOk};
ghost use Rattle.mqb_fields.specs.Reading.{Reads, ReadsAs, guid_at};
ghost use Rattle.mqb_capture.specs.Grammar.{head_at, magic_at, or_end, piece_at, role_of};
ghost use Rattle.mqb_capture.specs.Grammar.{way_of, within_at};
ghost use Rattle.mqb_capture.specs.Lawful.{first_session};
ghost use Rattle.mqb_capture.specs.declared.answers.TheConstants.{MAX_PIECE};
ghost use Rattle.mqb_inspect.specs.Grammar.{seen_head, seen_piece};

use mqb_base::Guid;
use mqb_capture::{MAX_PIECE, Way};
use mqb_fields::Cursor;
use mqb_session::Session;

/// The bytes `MQBC`, with which a capture begins.
const MAGIC: u32 = 0x4342_514D;

/// The head of a capture. The role is 0 of an initiator and 1 of an acceptor.
#[derive(Clone, Copy)]
pub struct CaptureHead {
    pub role: u8,
    pub own: Guid,
    pub peer: Guid,
    pub window: u16,
}

/// A piece, whose bytes are lent.
#[derive(Clone, Copy)]
pub struct PieceView<'a> {
    pub way: Way,
    pub bytes: &'a [u8],
}

// Each reader answers the place that tells a field which is none: its first byte where it is
// outside the grammar, and `end`, that of all bytes, where it is cut short.

fn read_magic(cursor: &mut Cursor<'_>, end: usize) -> Result<u32, usize>
    requires { end ≡ length cursor.old.bytes }
    ensures read { Reads magic_at cursor.old cursor.new result }
    ensures bytes { OnOk result (cursor.new.bytes ≡ cursor.old.bytes) }
{
    let at = cursor.at();
    let Ok(magic) = cursor.u32() else {
        return Err(end);
    };
    if magic != MAGIC {
        return Err(at);
    }
    Ok(magic)
}

/// A byte that is 0 or 1.
fn read_flag(cursor: &mut Cursor<'_>, end: usize) -> Result<u8, usize>
    requires { end ≡ length cursor.old.bytes }
    ensures read { Reads (within_at 1 0 1) cursor.old cursor.new result }
    ensures bytes { OnOk result (cursor.new.bytes ≡ cursor.old.bytes) }
{
    let at = cursor.at();
    let Ok(flag) = cursor.u8() else {
        return Err(end);
    };
    if flag > 1 {
        return Err(at);
    }
    Ok(flag)
}

fn read_guid(cursor: &mut Cursor<'_>, end: usize) -> Result<Guid, usize>
    requires { end ≡ length cursor.old.bytes }
    ensures read { ReadsAs (λ guid. guid.0) (λ r. or_end r (guid_at r)) cursor.old cursor.new
        result }
    ensures bytes { OnOk result (cursor.new.bytes ≡ cursor.old.bytes) }
{
    match cursor.guid() {
        Ok(guid) => Ok(Guid(guid)),
        Err(_) => Err(end),
    }
}

fn read_window(cursor: &mut Cursor<'_>, end: usize) -> Result<u16, usize>
    requires { end ≡ length cursor.old.bytes }
    ensures read { Reads (within_at 2 1 65535) cursor.old cursor.new result }
    ensures bytes { OnOk result (cursor.new.bytes ≡ cursor.old.bytes) }
{
    let at = cursor.at();
    let Ok(window) = cursor.u16() else {
        return Err(end);
    };
    if window == 0 {
        return Err(at);
    }
    Ok(window)
}

fn read_size(cursor: &mut Cursor<'_>, end: usize) -> Result<u32, usize>
    requires { end ≡ length cursor.old.bytes }
    ensures read { Reads (within_at 4 1 MAX_PIECE) cursor.old cursor.new result }
    ensures bytes { OnOk result (cursor.new.bytes ≡ cursor.old.bytes) }
{
    let at = cursor.at();
    let Ok(size) = cursor.u32() else {
        return Err(end);
    };
    if !(1..=MAX_PIECE).contains(&size) {
        return Err(at);
    }
    Ok(size)
}

/// The head, at the start of the bytes.
#[tactic(auto, unfolding(mqb_capture::specs::Grammar::head_at))]
pub fn read_head(cursor: &mut Cursor<'_>, end: usize) -> Result<CaptureHead, usize>
    requires { end ≡ length cursor.old.bytes }
    ensures read { ReadsAs seen_head head_at cursor.old cursor.new result }
    ensures bytes { OnOk result (cursor.new.bytes ≡ cursor.old.bytes) }
{
    read_magic(cursor, end)?;
    let role = read_flag(cursor, end)?;
    let own = read_guid(cursor, end)?;
    let peer = read_guid(cursor, end)?;
    let window = read_window(cursor, end)?;
    Ok(CaptureHead {
        role,
        own,
        peer,
        window,
    })
}

/// The session of the end that was captured, before anything was sent or heard.
pub fn first_session(head: &CaptureHead) -> Session
    ensures { result ≡ first_session (seen_head head.now) }
{
    if head.role == 0 {
        Session::initiator(head.own, head.peer, head.window)
    } else {
        Session::acceptor(head.own, head.window)
    }
}

fn way_of(flag: u8) -> Way
    ensures { result ≡ way_of flag }
{
    if flag == 0 { Way::Sent } else { Way::Heard }
}

/// The next piece.
#[tactic(auto, unfolding(mqb_capture::specs::Grammar::piece_at))]
pub fn read_piece<'a>(cursor: &mut Cursor<'a>, end: usize) -> Result<PieceView<'a>, usize>
    requires { end ≡ length cursor.old.bytes }
    ensures read { ReadsAs seen_piece piece_at cursor.old cursor.new result }
    ensures bytes { OnOk result (cursor.new.bytes ≡ cursor.old.bytes) }
{
    let way = way_of(read_flag(cursor, end)?);
    let size = read_size(cursor, end)?;
    let Ok(bytes) = cursor.take(size as usize) else {
        return Err(end);
    };
    Ok(PieceView { way, bytes })
}
