//! What the parts of a set-up have by their types: their numbers are within their widths. Each
//! function only says it.
ghost use Rattle.std.specs.Prelude.{◌<◌, ◌^◌};
ghost use Rattle.mqb_setup.specs.Widths.{IsEstablish, IsGuid, IsInternal};
ghost use Rattle.mqb_setup.specs.Widths.{IsParameters, IsSessionHead};

use mqb_base::{Guid, SessionHead};
use mqb_names::word_fits;
use mqb_setup::{Establish, Internal, Parameters};

fn half_fits(half: u16)
    ensures { half < 2 ^ 16 }
{}

fn guid_fits(guid: Guid)
    ensures { IsGuid guid }
{
    let _bytes = guid.0;
}

pub(crate) fn head_fits(head: &SessionHead)
    ensures { IsSessionHead head.now }
{
    half_fits(head.ack);
    half_fits(head.stored);
    word_fits(head.stored_flags);
    half_fits(head.user);
    half_fits(head.recoverable);
    half_fits(head.window);
}

fn establish_fits(establish: &Establish)
    ensures { IsEstablish establish.now }
{
    guid_fits(establish.client);
    guid_fits(establish.server);
    word_fits(establish.stamp);
}

fn parameters_fit(parameters: &Parameters)
    ensures { IsParameters parameters.now }
{
    word_fits(parameters.storage_time);
    word_fits(parameters.ack_time);
    half_fits(parameters.window);
}

pub(crate) fn part_fits(part: &Internal)
    ensures { IsInternal part.now }
{
    match part {
        Internal::Ack(head) => head_fits(head),
        Internal::Establish(establish) => establish_fits(establish),
        Internal::Parameters(parameters) => parameters_fit(parameters),
    }
}
