ghost use Rattle.std.specs.Prelude.{◌≡◌, ◌++◌, OnOk, OnErr};
ghost use Rattle.mqb_listing.specs.Listing.{listed, listing};
ghost use Rattle.mqb_transcript.specs.Printing.{wrote};

use crate::hosts::known_hosts;
use crate::places::{put_machine, put_queues};
use crate::rows::{put_ins, put_outs};
use mqb_base::Memory;
use mqb_contents::Contents;
use mqb_transcript::Printer;
use std::alloc::Global;

fn put_listing(printer: &mut Printer<'_>, contents: &Contents) -> Result<(), Memory>
    ensures { OnOk result (printer.new ≡ wrote printer.old
        (listed printer.old.hosts contents.now.lists.identity.host contents.now.lists)) }
{
    let host = contents.identity().host.as_slice();
    put_queues(printer, host, contents.queues())?;
    put_machine(printer, host, contents.queues())?;
    put_outs(printer, host, contents.outs())?;
    put_ins(printer, host, contents.ins())
}

/// Appends the lines of a manager. It and its peers are printed as their hosts, any other manager
/// as its GUID. After a refusal `out` is as before.
#[tactic(auto, using(mqb_transcript::specs::lemmas::Wrote::text_wrote))]
pub fn print(alloc: Global, contents: &Contents, out: &mut Vec<u8>) -> Result<(), Memory>
    ensures ok { OnOk result (out.new.items ≡ out.old.items ++ listing contents.now.lists) }
    ensures err { OnErr result (out.new.items ≡ out.old.items) }
{
    let hosts = known_hosts(alloc, contents.identity(), contents.peers())?;
    let mut printer = Printer::new(alloc, hosts.as_slice());
    put_listing(&mut printer, contents)?;
    out.extend_from_slice(printer.text())?;
    Ok(())
}
