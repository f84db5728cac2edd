ghost use Rattle.std.specs.Prelude.{◌+◌, ◌≤◌, length};

use crate::links::Links;
use mqb_base::Guid;
use mqb_session::Session;
use mqb_stream::Framer;

/// What is known of the packets so far, which are lawful. Of each way: the bytes that are
/// no packet yet, the messages with their numbers, and how many packets came. `seen` is
/// the count of all bytes.
#[derive(Debug, Drop)]
pub struct Inspection {
    pub own: Guid,
    pub peer: Guid,
    pub session: Session,
    pub sent: Framer,
    pub heard: Framer,
    pub sent_links: Links,
    pub heard_links: Links,
    pub sent_count: u32,
    pub heard_count: u32,
    pub seen: u32,
    ghost sent_few: { sent.place + length sent.held ≤ seen },
    ghost heard_few: { heard.place + length heard.held ≤ seen },
    ghost counted: { sent_count + heard_count ≤ seen },
}
