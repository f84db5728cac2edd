//! Whether two messages that went one way may stand beside each other.
ghost use Rattle.std.specs.Prelude.{◌≡◌};
ghost use Rattle.mqb_capture.specs.Judged.{fits, is_one_sequence, same_message, same_optional};
ghost use Rattle.mqb_capture.specs.Links.{link_of};
ghost use Rattle.mqb_inspect.specs.Linking.{fit_both, same_asking, same_content, same_names};

use mqb_base::{Class, Message, same_name, same_sequence};
use mqb_capture::Link;
use mqb_packet::Packet;

/// The message of a packet with its place in a sequence, where it has one.
pub fn link_of(p: Packet) -> Option<Link>
    ensures { result ≡ link_of p }
{
    match p {
        Packet::User(user) if user.message.class == Class::NORMAL => match user.tx {
            Some(tx) => Some(Link {
                message: user.message,
                tx,
            }),
            None => None,
        },
        _ => None,
    }
}

fn same_content(a: &Message, b: &Message) -> bool
    ensures { result ≡ same_content a.now b.now }
{
    (a.body_type == b.body_type && a.tag == b.tag)
        && ((a.label == b.label && a.extension == b.extension) && a.body == b.body)
}

fn same_asking(a: &Message, b: &Message) -> bool
    ensures { result ≡ same_asking a.now b.now }
{
    (a.response == b.response && a.ack == b.ack)
        && ((a.journal == b.journal && a.correlation == b.correlation) && same_content(a, b))
}

fn same_admin(a: &Message, b: &Message) -> bool
    ensures { result ≡ same_optional a.now.admin b.now.admin }
{
    a.admin == b.admin
}

fn same_names(a: &Message, b: &Message) -> bool
    ensures { result ≡ same_names a.now b.now }
{
    (a.sent == b.sent && a.life == b.life)
        && ((same_name(&a.destination, &b.destination) && same_admin(a, b)) && same_asking(a, b))
}

/// Whether two messages are the same but for the time that is left to reach their queue.
fn same_message(a: &Message, b: &Message) -> bool
    ensures { result ≡ same_message a.now b.now }
{
    (a.id == b.id && a.class.0 == b.class.0)
        && ((a.delivery == b.delivery && a.priority == b.priority) && same_names(a, b))
}

fn is_one_sequence(a: &Link, b: &Link) -> bool
    ensures { result ≡ is_one_sequence a.now b.now }
{
    same_name(&a.message.destination, &b.message.destination)
        && same_sequence(a.tx.sequence, b.tx.sequence)
}

/// Whether the second message may stand beside the first, as far as that one's number tells.
fn fits(a: &Link, b: &Link) -> bool
    ensures { result ≡ fits a.now b.now }
{
    !is_one_sequence(a, b)
        || if a.tx.number < b.tx.number {
            a.tx.number <= b.tx.previous
        } else {
            a.tx.number != b.tx.number
                || (a.tx.previous == b.tx.previous && same_message(&a.message, &b.message))
        }
}

/// Whether two messages may stand beside each other, whichever of them is the later one.
pub fn fit_both(a: &Link, b: &Link) -> bool
    ensures { result ≡ fit_both a.now b.now }
{
    fits(a, b) && fits(b, a)
}
