//! What the parts of a state have by their types: numbers are within their widths, and names are
//! names. Each function only says it.
ghost use Rattle.std.specs.Prelude.{IfSome};
ghost use Rattle.mqb_names.specs.Values.{AreBytes};
ghost use Rattle.mqb_snapshot.specs.Values.{IsHeld, IsIdentity, IsIn, IsPlan};

use mqb_base::{Guid, Identity, Message, QueuePlan};
use mqb_heads::message_fits;
use mqb_names::{bytes_fit, guid_fits, name_fits, queue_fits, word_fits};
use mqb_orders::InRow;

fn guid_fits_if(guid: &Option<Guid>)
    ensures { IfSome guid.now (λ guid. AreBytes 16 guid.0) }
{
    if let Some(guid) = guid {
        guid_fits(guid);
    }
}

pub(crate) fn held_fits(message: &Message)
    ensures { IsHeld message.now }
{
    word_fits(message.reach);
    message_fits(message);
}

pub(crate) fn identity_fits(identity: &Identity)
    ensures { IsIdentity identity.now }
{
    name_fits(&identity.host);
    guid_fits(&identity.guid);
    bytes_fit(&identity.address);
}

pub(crate) fn plan_fits(plan: &QueuePlan)
    ensures { IsPlan plan.now }
{
    name_fits(&plan.name);
    guid_fits_if(&plan.public);
    word_fits(plan.quota);
}

pub(crate) fn in_row_fits(row: &InRow)
    ensures { IsIn row.now }
{
    guid_fits(&row.source);
    queue_fits(&row.destination);
    word_fits(row.sequence.ordinal);
    word_fits(row.sequence.stamp);
    word_fits(row.last);
}
