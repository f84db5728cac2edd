ghost use Rattle.std.specs.Prelude.{◌≡◌, ◌++◌, codes, OnOk, OnErr};
ghost use Rattle.std.specs.Fmt.{decimal};
ghost use Rattle.mqb_transcript.specs.Printing.{wrote};
ghost use Rattle.mqb_transcript.specs.Texts.{numbers_text, id_text, lines_text, cause_text};
ghost use Rattle.mqb_transcript.specs.Texts.{heard_text, heard_reply, outcome_text, arrival_text};
ghost use Rattle.mqb_transcript.specs.Texts.{arrivals_text, op_text, words_text, reply_text};
ghost use Rattle.mqb_transcript.specs.Texts.{number_text, printed};

use crate::arrivals::{Arrival, Outcome};
use crate::printer::Printer;
use crate::replies::Reply;
use mqb_base::{Cause, Heard, Identity, Line, Memory, MessageId};
use std::alloc::Global;

#[tactic(auto, unfolding(crate::specs::Texts::cause_text))]
fn cause_text(cause: Cause) -> &'static [u8]
    ensures { result.now ≡ cause_text cause }
{
    match cause {
        Cause::Early => b"early",
        Cause::BadAck => b"badack",
        Cause::Refused => b"refused",
        Cause::Repeated => b"repeated",
        Cause::Foreign => b"foreign",
    }
}

/// The text of a reply of words alone.
#[tactic(auto, unfolding(crate::specs::Texts::words_text))]
fn words_text(reply: &Reply) -> &'static [u8]
    ensures { result.now ≡ words_text reply.now }
{
    match reply {
        Reply::Done => b"ok",
        Reply::Down => b"down",
        Reply::Stopped => b"stopped",
        Reply::Failed => b"failed",
        Reply::QueueThere => b"queuethere",
        Reply::TooManyQueues => b"toomanyqueues",
        Reply::TooManyOps => b"toomanyops",
        Reply::TooLarge => b"toolarge",
        Reply::TooFar => b"toofar",
        Reply::NumbersSpent => b"numbersspent",
        Reply::Transactional => b"transactional",
        Reply::Linked => b"linked",
        Reply::Disconnected => b"disconnected",
        Reply::Unlinked => b"unlinked",
        Reply::Spent => b"spent",
        Reply::NoPacket => b"none",
        Reply::Gone => b"gone",
        Reply::Dropped => b"dropped",
        Reply::Armed => b"armed",
        Reply::Opened => b"opened",
        Reply::OpenedLost => b"opened lost",
        _ => b"",
    }
}

impl<'h> Printer<'h> {
    #[tactic(auto, using(crate::specs::lemmas::Wrote::writing))]
    fn acked(&mut self, ordinal: u32, number: u32) -> Result<(), Memory>
        ensures { OnOk result (self.new ≡ wrote self.old (codes "acked " ++ decimal ordinal ++
            codes " " ++ decimal number)) }
    {
        self.put(b"acked ")?;
        self.number(ordinal)?;
        self.put(b" ")?;
        self.number(number)
    }

    #[tactic(auto, using(crate::specs::lemmas::Wrote::writing))]
    fn closed(&mut self, cause: Cause) -> Result<(), Memory>
        ensures { OnOk result (self.new ≡ wrote self.old (codes "closed " ++ cause_text cause)) }
    {
        self.put(b"closed ")?;
        self.put(cause_text(cause))
    }

    #[tactic(auto, using(crate::specs::lemmas::Wrote::writing), unfolding(crate::specs::Texts::heard_text))]
    fn heard(&mut self, heard: &Heard) -> Result<(), Memory>
        ensures { OnOk result (self.new ≡ wrote self.old (heard_text self.old.hosts heard.now)) }
    {
        match heard {
            Heard::SetUp => self.put(b"setup"),
            Heard::Session => self.put(b"session"),
            Heard::Put { .. } => self.put(b"put"),
            Heard::Refused { class, .. } => self.classed(b"refused ", *class),
            Heard::Duplicate { sequence, number } => {
                self.placed(b"duplicate ", sequence, *number)
            }
            Heard::Gap { sequence, number } => self.placed(b"gap ", sequence, *number),
            Heard::Stale { sequence, number } => self.placed(b"stale ", sequence, *number),
            Heard::Stored => self.put(b"stored"),
            Heard::Bounced(class) => self.classed(b"bounced ", *class),
            Heard::ExpressPut(id) => self.about(b"express ", id),
            Heard::ExpressBounced(class, id) => {
                self.classed_about(b"expressbounced ", *class, id)
            }
            Heard::OrderAcked { ordinal, number } => self.acked(*ordinal, *number),
            Heard::OldAck => self.put(b"oldack"),
            Heard::Final { id, class } => self.classed_about(b"final ", *class, id),
            Heard::Discarded => self.put(b"discarded"),
            Heard::Closed(cause) => self.closed(*cause),
        }
    }

    #[tactic(auto, using(crate::specs::lemmas::Wrote::writing))]
    fn heard_reply(&mut self, heard: &Heard, lines: &[Line]) -> Result<(), Memory>
        ensures { OnOk result (self.new ≡ wrote self.old (heard_reply self.old.hosts heard.now
            lines.now)) }
    {
        self.heard(heard)?;
        self.ledger(lines)
    }

    #[tactic(auto, using(crate::specs::lemmas::Wrote::writing), unfolding(crate::specs::Texts::outcome_text))]
    fn outcome(&mut self, outcome: &Outcome) -> Result<(), Memory>
        ensures { OnOk result (self.new ≡ wrote self.old (outcome_text self.old.hosts
            outcome.now)) }
    {
        match outcome {
            Outcome::Heard { heard, lines } => self.heard_reply(heard, lines.as_slice()),
            Outcome::Gone => self.put(b"gone"),
            Outcome::Stopped => self.put(b"stopped"),
            Outcome::Failed => self.put(b"failed"),
        }
    }

    #[tactic(auto, using(crate::specs::lemmas::Wrote::writing), unfolding(crate::specs::Texts::arrival_text))]
    fn arrival(&mut self, arrival: &Arrival) -> Result<(), Memory>
        ensures { OnOk result (self.new ≡ wrote self.old (arrival_text self.old.hosts
            arrival.now)) }
    {
        self.spaced_number(arrival.packet)?;
        self.put(b": ")?;
        self.outcome(&arrival.outcome)
    }

    #[tactic(auto, using(crate::specs::lemmas::Wrote::writing), unfolding(crate::specs::Texts::arrivals_text))]
    fn arrivals(&mut self, arrivals: &[Arrival]) -> Result<(), Memory>
        ensures { OnOk result (self.new ≡ wrote self.old (arrivals_text self.old.hosts
            arrivals.now)) }
    {
        for arrival in arrivals {
            self.arrival(arrival)?;
        }
        Ok(())
    }

    #[tactic(auto, using(crate::specs::lemmas::Wrote::writing))]
    fn flowed(&mut self, arrivals: &[Arrival]) -> Result<(), Memory>
        ensures { OnOk result (self.new ≡ wrote self.old (codes "flowed" ++
            arrivals_text self.old.hosts arrivals.now)) }
    {
        self.put(b"flowed")?;
        self.arrivals(arrivals)
    }

    /// A word and the numbers of packets.
    #[tactic(auto, using(crate::specs::lemmas::Wrote::writing))]
    fn packets(&mut self, word: &[u8], packets: &[u32]) -> Result<(), Memory>
        ensures { OnOk result (self.new ≡ wrote self.old (word.now ++ numbers_text packets.now)) }
    {
        self.put(word)?;
        self.numbers(packets)
    }

    /// A word and the place of an op, where there is one.
    #[tactic(auto, using(crate::specs::lemmas::Wrote::writing), unfolding(crate::specs::Texts::op_text))]
    fn at_op(&mut self, word: &[u8], op: Option<u32>) -> Result<(), Memory>
        ensures { OnOk result (self.new ≡ wrote self.old (word.now ++ op_text op)) }
    {
        self.put(word)?;
        match op {
            Some(op) => self.spaced_number(op),
            None => Ok(()),
        }
    }

    /// A word and ledger lines.
    #[tactic(auto, using(crate::specs::lemmas::Wrote::writing))]
    fn recorded(&mut self, word: &[u8], lines: &[Line]) -> Result<(), Memory>
        ensures { OnOk result (self.new ≡ wrote self.old (word.now ++
            lines_text self.old.hosts lines.now)) }
    {
        self.put(word)?;
        self.ledger(lines)
    }

    /// A word, an identifier and ledger lines.
    #[tactic(auto, using(crate::specs::lemmas::Wrote::writing))]
    fn recorded_about(&mut self, word: &[u8], id: &MessageId, lines: &[Line]) -> Result<(), Memory>
        ensures { OnOk result (self.new ≡ wrote self.old (word.now ++
            id_text self.old.hosts id.now ++ lines_text self.old.hosts lines.now)) }
    {
        self.about(word, id)?;
        self.ledger(lines)
    }

    /// A word, a count and ledger lines.
    #[tactic(auto, using(crate::specs::lemmas::Wrote::writing))]
    fn counted(&mut self, word: &[u8], count: u64, lines: &[Line]) -> Result<(), Memory>
        ensures { OnOk result (self.new ≡ wrote self.old (word.now ++ decimal count ++
            lines_text self.old.hosts lines.now)) }
    {
        self.put(word)?;
        self.count(count)?;
        self.ledger(lines)
    }

    #[tactic(auto, using(crate::specs::lemmas::Wrote::writing), unfolding(crate::specs::Texts::reply_text))]
    fn reply(&mut self, reply: &Reply) -> Result<(), Memory>
        ensures { OnOk result (self.new ≡ wrote self.old (reply_text self.old.hosts reply.now)) }
    {
        match reply {
            Reply::Committed { lines } => self.recorded(b"committed", lines.as_slice()),
            Reply::NoQueue { op } => self.at_op(b"noqueue", *op),
            Reply::NotTransactional { op } => self.at_op(b"nottransactional", Some(*op)),
            Reply::QueueEmpty { op } => self.at_op(b"queueempty", *op),
            Reply::UnknownPeer { op } => self.at_op(b"unknownpeer", *op),
            Reply::QueueFull { op } => self.at_op(b"queuefull", *op),
            Reply::SequenceSpent { op } => self.at_op(b"sequencespent", Some(*op)),
            Reply::Sent { id, lines } => self.recorded_about(b"sent ", id, lines.as_slice()),
            Reply::Took { id, lines } => self.recorded_about(b"took ", id, lines.as_slice()),
            Reply::Purged { count, lines } => self.counted(
                b"purged ",
                u64::from(*count),
                lines.as_slice(),
            ),
            Reply::Ticked { express, lines } => self.counted(
                b"ticked ",
                *express,
                lines.as_slice(),
            ),
            Reply::Connected { packets } => self.packets(b"connected", packets),
            Reply::Pumped { packets } => self.packets(b"pumped", packets.as_slice()),
            Reply::Heard { heard, lines } => self.heard_reply(heard, lines.as_slice()),
            Reply::Flowed { arrivals } => self.flowed(arrivals.as_slice()),
            Reply::OpenedKept { lines } => self.recorded(b"opened kept", lines.as_slice()),
            _ => self.put(words_text(reply)),
        }
    }

    #[tactic(auto, using(crate::specs::lemmas::Wrote::writing), unfolding(crate::specs::Texts::number_text))]
    fn line_number(&mut self, line: Option<u32>) -> Result<(), Memory>
        ensures { OnOk result (self.new ≡ wrote self.old (number_text line)) }
    {
        match line {
            Some(number) => {
                self.number(number)?;
                self.put(b" ")
            }
            None => Ok(()),
        }
    }

    #[tactic(auto, using(crate::specs::lemmas::Wrote::writing))]
    fn line(&mut self, line: Option<u32>, reply: &Reply) -> Result<(), Memory>
        ensures { OnOk result (self.new ≡ wrote self.old (printed self.old.hosts line reply.now)) }
    {
        self.line_number(line)?;
        self.reply(reply)?;
        self.put(b"\n")
    }
}

/// Appends a line of the transcript: the script's line number, where there is one, and
/// the reply with its ledger lines. A GUID of `hosts` is printed as its host. After a
/// refusal `out` is as before.
#[tactic(auto, using(crate::specs::lemmas::Wrote::text_wrote))]
pub fn print_reply(
    alloc: Global,
    line: Option<u32>,
    reply: &Reply,
    hosts: &[Identity],
    out: &mut Vec<u8>,
) -> Result<(), Memory>
    ensures ok { OnOk result (out.new.items ≡ out.old.items ++ printed hosts.now line reply.now) }
    ensures err { OnErr result (out.new.items ≡ out.old.items) }
{
    let mut printer = Printer::new(alloc, hosts);
    printer.line(line, reply)?;
    out.extend_from_slice(printer.text())?;
    Ok(())
}
