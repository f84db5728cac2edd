ghost use Rattle.mqb_serving.specs.Laws.{CuttingDoesNotMatter, EndsLast, PacketsAreHeard};
ghost use Rattle.mqb_serving.specs.Laws.{PiecesFillPackets, PrefixesWritePrefixes, PumpsComeToRest};

use mqb_model::calls_keep_valid;

/// The pieces in which the bytes of a connection come do not matter.
pub fn cutting_does_not_matter()
    ensures { CuttingDoesNotMatter }
{}

/// What is written for the first of the bytes that come begins what is written for all.
pub fn prefixes_write_prefixes()
    ensures { PrefixesWritePrefixes }
{}

/// A connection that has ended is not changed by what comes.
pub fn ends_last()
    ensures { EndsLast }
{}

/// Where a framer takes its part of a piece, that part is read, and then what is
/// held is looked at once.
pub fn pieces_fill_packets()
    ensures { PiecesFillPackets }
{}

/// What one end writes for packets, the other hears as these packets.
pub fn packets_are_heard()
    ensures { PacketsAreHeard }
{}

/// A valid manager that pumps comes to a pump that sends nothing.
pub fn pumps_come_to_rest()
    ensures { PumpsComeToRest }
{
    calls_keep_valid();
}
