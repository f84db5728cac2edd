ghost use Rattle.std.specs.Prelude.{◌≡◌, ℕ, List, IfOk};
ghost use Rattle.mqb_fields.specs.Reading.{Reads, ReadsAs};
ghost use Rattle.mqb_heads.specs.Transactions.{tx_at};
ghost use Rattle.mqb_setup.specs.Sessions.{session_at};
ghost use Rattle.mqb_packet.specs.Parts.{head_if, internal_parts_at, packet_of, parts_at, seen};
ghost use Rattle.mqb_packet.specs.Parts.{seen_packet, seen_user, user_packet_at, user_parts_at};
ghost use Rattle.mqb_packet.specs.Spelled.{IsLent, Lends};

use mqb_base::{SessionHead, TxHead};
use mqb_fields::{Cursor, HeadFault};
use mqb_heads::{BaseHead, PropsHead, UserHead, read_base, read_props, read_tx, read_user};
use mqb_setup::{Establish, Internal, Parameters, read_internal, read_session};

/// A user packet whose names, label, extension and body are slices of `whole`, all of its bytes.
#[derive(Clone, Copy, Debug)]
pub struct UserView<'a> {
    pub base: BaseHead,
    pub user: UserHead<'a>,
    pub tx: Option<TxHead>,
    pub props: PropsHead<'a>,
    pub session: Option<SessionHead>,
    pub whole: &'a [u8],
}

/// A packet that was read. Only a user packet lends parts.
#[derive(Clone, Copy, Debug)]
pub enum PacketView<'a> {
    User(UserView<'a>),
    Establish(Establish),
    Parameters(Parameters),
    Ack(SessionHead),
}

fn read_tx_if(cursor: &mut Cursor<'_>, present: bool) -> Result<Option<TxHead>, HeadFault>
    ensures { Reads (head_if present tx_at) cursor.old cursor.new result }
{
    if !present {
        return Ok(None);
    }
    Ok(Some(read_tx(cursor)?))
}

fn read_session_if(cursor: &mut Cursor<'_>, present: bool) -> Result<Option<SessionHead>, HeadFault>
    ensures { Reads (head_if present session_at) cursor.old cursor.new result }
{
    if !present {
        return Ok(None);
    }
    Ok(Some(read_session(cursor)?))
}

#[tactic(auto, unfolding(crate::specs::Parts::user_parts_at))]
fn read_user_parts<'a>(
    cursor: &mut Cursor<'a>,
    base: BaseHead,
    whole: &'a [u8],
) -> Result<UserView<'a>, HeadFault>
    ensures read { ReadsAs seen_user (user_parts_at base whole.now) cursor.old cursor.new result }
    ensures whole { IfOk result (λ view. view.whole.now ≡ whole.now) }
{
    let user = read_user(cursor)?;
    let tx = read_tx_if(cursor, user.transaction)?;
    let props = read_props(cursor)?;
    let session = read_session_if(cursor, base.session)?;
    Ok(UserView {
        base,
        user,
        tx,
        props,
        session,
        whole,
    })
}

fn read_user_packet<'a>(
    cursor: &mut Cursor<'a>,
    base: BaseHead,
    whole: &'a [u8],
) -> Result<PacketView<'a>, HeadFault>
    ensures read { ReadsAs seen_packet (user_packet_at base whole.now) cursor.old cursor.new
        result }
    ensures whole { IfOk result (λ view. Lends whole.now view) }
{
    Ok(PacketView::User(read_user_parts(cursor, base, whole)?))
}

fn read_internal_packet<'a>(cursor: &mut Cursor<'a>) -> Result<PacketView<'a>, HeadFault>
    ensures read { ReadsAs seen_packet internal_parts_at cursor.old cursor.new result }
    ensures whole { (whole : List ℕ) → IfOk result (λ view. Lends whole view) }
{
    Ok(match read_internal(cursor)? {
        Internal::Ack(head) => PacketView::Ack(head),
        Internal::Establish(establish) => PacketView::Establish(establish),
        Internal::Parameters(parameters) => PacketView::Parameters(parameters),
    })
}

fn read_parts<'a>(
    cursor: &mut Cursor<'a>,
    base: BaseHead,
    whole: &'a [u8],
) -> Result<PacketView<'a>, HeadFault>
    ensures read { ReadsAs seen_packet (parts_at base whole.now) cursor.old cursor.new result }
    ensures whole { IfOk result (λ view. Lends whole.now view) }
{
    if base.internal {
        read_internal_packet(cursor)
    } else {
        read_user_packet(cursor, base, whole)
    }
}

/// Reads the packet that these bytes are, all of them, and lends its parts. The first fault from
/// the left is answered.
#[tactic(auto, unfolding(crate::specs::Parts::packet_of))]
pub fn view(bytes: &[u8]) -> Result<PacketView<'_>, HeadFault>
    ensures packet { seen result ≡ packet_of bytes.now }
    ensures whole { IfOk result (λ view. Lends bytes.now view) }
    ensures lent { IfOk result (λ view. IsLent view) }
{
    let base = read_base(bytes)?;
    if base.size as usize != bytes.len() {
        return Err(HeadFault::PAST_END);
    }
    let mut cursor = Cursor::new(bytes);
    cursor.skip(16)?;
    let packet = read_parts(&mut cursor, base, bytes)?;
    if !cursor.rest().is_empty() {
        return Err(HeadFault::PAST_END);
    }
    Ok(packet)
}
