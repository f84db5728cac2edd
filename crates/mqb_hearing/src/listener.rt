ghost use Rattle.std.specs.Prelude.{[], ◌+◌, ◌<◌, ◌≡◌, ◌≤◌, IfOk, Some, length, map};
ghost use Rattle.mqb_base.specs.declared.message.Message.{Message};
ghost use Rattle.mqb_model.specs.calls.hear.Plain.{express_arrived};
ghost use Rattle.mqb_model.specs.calls.hear.Session.{discarded, heard_as, numbers_released};
ghost use Rattle.mqb_model.specs.managers.Manager.{linked_peer};
ghost use Rattle.mqb_model.specs.records.Record.{Nothing};
ghost use Rattle.mqb_model.specs.declared.limits.TheConstants.{MAX_RELEASED};
ghost use Rattle.mqb_session.specs.Sending.{noted_stored};
ghost use Rattle.mqb_hearing.specs.Arrivals.{IsPartRead, arrived_as, bytes_in, part_shown};
ghost use Rattle.mqb_hearing.specs.Plans.{Brings, Hears, listening_so, owing_at};

use crate::arrival::Arrival;
use crate::hearing::Hearing;
use mqb_base::{Class, Heard, Memory, Message};
use mqb_contents::Contents;
use mqb_entries::ArrivedPart;
use mqb_session::Session;
use mqb_timeouts::ExpressWork;
use std::alloc::{AllocError, Global};
use std::marker::Model;

/// What a manager keeps that hears a packet at a moment, and the session behind
/// the packet's header.
#[derive(Debug, Drop)]
pub(crate) struct Listener<'c> {
    alloc: Global,
    contents: &'c Contents,
    session: Session,
    moment: u32,
}

impl<'c> Model for Listener<'c> {
    ghost use Rattle.mqb_hearing.specs.Plans.{Behind};

    ghost Value = { Behind };

    ghost view = { λ l. record {
      state = l.contents.now.lists;
      session = l.session;
      moment = l.moment;
    } };

    ghost invariant = { λ l. Unit {0} };
}

fn numbers_of(alloc: Global, messages: &[Message]) -> Result<Vec<u32>, AllocError>
    ensures { IfOk result (λ numbers. numbers.items ≡
        map (λ (m : Message). m.id.number) messages.now) }
{
    messages
        .iter()
        .map(|message| message.id.number)
        .collect(alloc)
}

impl<'c> Listener<'c> {
    pub(crate) fn new(
        alloc: Global,
        contents: &'c Contents,
        session: Session,
        now: u32,
    ) -> Listener<'c>
        ensures { result ≡
            record { state = contents.now.lists; session = session; moment = now } }
    {
        Listener {
            alloc,
            contents,
            session,
            moment: now,
        }
    }

    pub(crate) fn alloc(&self) -> Global {
        self.alloc
    }

    pub(crate) fn contents(&self) -> &'c Contents
        ensures { result.now.lists ≡ self.now.state }
    {
        self.contents
    }

    fn session(&self) -> Session
        ensures { result ≡ self.now.session }
    {
        self.session
    }

    fn now(&self) -> u32
        ensures { result ≡ self.now.moment }
    {
        self.moment
    }

    /// How many recoverable messages the peer has stored.
    fn recoverable_acked(&self) -> u16
        ensures { result ≡ self.now.session.recoverable_acked }
    {
        self.session.recoverable_acked()
    }

    /// How many user packets the peer has got.
    fn acked(&self) -> u16
        ensures { result ≡ self.now.session.acked }
    {
        self.session.acked()
    }

    /// The same, once one message more counts as stored.
    pub(crate) fn with_stored(&self) -> Listener<'c>
        requires { self.now.session.stored < self.now.session.got }
        ensures { result ≡ record self.now { session = noted_stored self.now.session } }
    {
        let mut session = self.session;
        session.note_stored();
        Listener {
            alloc: self.alloc,
            contents: self.contents,
            session,
            moment: self.moment,
        }
    }

    /// The index of the peer that is heard. While it is not known, that is the index of no peer.
    pub(crate) fn peer(&self) -> u32
        ensures { result ≡ linked_peer self.now.state self.now.session }
    {
        let known = match self.session.peer() {
            Some(guid) => self.contents.peer_known(guid),
            None => None,
        };
        match known {
            Some(peer) => peer,
            None => self.contents.peers().len() as u32,
        }
    }

    /// The numbers that are released. Their messages are the first of the peer's recoverable ones.
    fn released(&self) -> Result<Vec<u32>, Memory>
        ensures numbers { IfOk result (λ numbers. numbers.items ≡
            numbers_released (listening_so self.now)) }
        ensures few { IfOk result (λ numbers. length numbers.items ≤ MAX_RELEASED) }
    {
        let contents = self.contents();
        let peer = self.peer();
        if peer as usize >= contents.peers().len() {
            return Ok(Vec::new(self.alloc));
        }
        let plain = contents.plain(peer);
        let count = plain.released_by(self.recoverable_acked());
        let numbers = numbers_of(self.alloc, &plain.recoverable()[..count as usize])?;
        Ok(numbers)
    }

    /// What arrived with this part of a packet.
    fn arrival<'a>(&self, part: ArrivedPart<'a>) -> Result<Arrival<'a>, Memory>
        requires { IsPartRead part }
        ensures { IfOk result (λ a. a ≡ arrived_as self.now.moment
            (numbers_released (listening_so self.now)) part.entry) }
    {
        let released = self.released()?;
        Ok(Arrival::new(self.moment, released, part))
    }

    /// A packet is heard as this. Its row owes an acknowledgement, where there is one.
    pub(crate) fn heard_owing<'a>(
        &self,
        part: ArrivedPart<'a>,
        answer: Heard,
        owes: Option<u32>,
    ) -> Result<Hearing<'a>, Memory>
        requires { IsPartRead part }
        ensures heard { Hears self.now result
            (λ l. owing_at owes (heard_as l (part_shown part.entry) answer)) }
        ensures brings { Brings (bytes_in part.entry) result }
    {
        let arrival = self.arrival(part)?;
        let work = ExpressWork::Drops {
            peer: self.peer(),
            number: self.acked(),
        };
        Ok(Hearing {
            answer,
            session: self.session(),
            arrival,
            work,
            owes,
        })
    }

    /// A packet is heard as this.
    pub(crate) fn heard_as<'a>(
        &self,
        part: ArrivedPart<'a>,
        answer: Heard,
    ) -> Result<Hearing<'a>, Memory>
        requires { IsPartRead part }
        ensures heard { Hears self.now result (λ l. heard_as l (part_shown part.entry) answer) }
        ensures brings { Brings (bytes_in part.entry) result }
    {
        self.heard_owing(part, answer, None)
    }

    /// A packet brings nothing, and its header counts all the same.
    pub(crate) fn heard_bare<'a>(&self, answer: Heard) -> Result<Hearing<'a>, Memory>
        ensures heard { Hears self.now result (λ l. heard_as l Nothing answer) }
        ensures brings { Brings [] result }
    {
        self.heard_as(ArrivedPart::Nothing, answer)
    }

    /// A packet is discarded.
    pub(crate) fn discarded<'a>(&self) -> Result<Hearing<'a>, Memory>
        ensures heard { Hears self.now result discarded }
        ensures brings { Brings [] result }
    {
        self.heard_bare(Heard::Discarded)
    }

    /// A packet is heard as this, and brings an express message that arrives, or is refused.
    pub(crate) fn heard_with<'a>(
        &self,
        message: Message,
        answer: Heard,
        refusal: Option<Class>,
    ) -> Result<Hearing<'a>, Memory>
        ensures heard { Hears self.now result (λ l. record (heard_as l Nothing answer)
            { beside = express_arrived l message refusal }) }
        ensures brings { Brings [] result }
    {
        let heard = self.arrival(ArrivedPart::Nothing);
        match heard {
            Ok(arrival) => Ok(Hearing {
                answer,
                session: self.session(),
                arrival,
                work: ExpressWork::Hears {
                    peer: self.peer(),
                    number: self.acked(),
                    now: self.now(),
                    message,
                    refusal,
                },
                owes: None,
            }),
            Err(memory) => {
                let _message = message;
                Err(memory)
            }
        }
    }
}
