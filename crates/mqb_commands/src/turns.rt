//! The messages of a place, in the order in which they are taken.
ghost use Rattle.std.specs.Prelude.{[], ◌≡◌, ◌++◌, ◌∷◌, IfOk, OnOk, filter, fold, map, max};
ghost use Rattle.mqb_commands.specs.Turns.{PutsFree, PutsTaken, held_at, is_free_of};
ghost use Rattle.mqb_queue.specs.First.{is_free, top_priority};

use crate::message_lines::put_message;
use mqb_base::{EntryPlace, Lane, Memory, Message, is_due};
use mqb_deque::SplitSlice;
use mqb_queue::Queues;
use mqb_transcript::Printer;
use std::alloc::Global;

/// Where messages are taken, and at which moment.
#[derive(Clone, Copy, Debug)]
struct Taking {
    at: EntryPlace,
    now: u32,
}

impl Taking {
    fn is_free(self, message: &Message) -> bool
        ensures { result ≡ is_free self.at self.now message.now }
    {
        let expires = matches!(self.at, EntryPlace::Queue(_));
        !(expires && is_due(message.sent, message.life, self.now))
    }

    /// The greatest priority of the messages that can be taken, or this one.
    fn top_in(self, messages: &[Message], least: u8) -> u8
        ensures { result ≡ fold max least
            (map (λ m. m.priority) (filter (is_free self.at self.now) messages.now)) }
    {
        messages
            .iter()
            .filter(|message| self.is_free(message))
            .map(|message| message.priority)
            .fold(least, |top, priority| top.max(priority))
    }

    fn top_priority(self, messages: &SplitSlice<'_, Message>) -> u8
        ensures { result ≡ top_priority (is_free self.at self.now) messages.now }
    {
        let (front, back) = messages.parts();
        let top = self.top_in(front, 0);
        self.top_in(back, top)
    }

    fn is_free_of(self, priority: u16, message: &Message) -> bool
        ensures { result ≡ is_free_of self.at self.now priority message.now }
    {
        self.is_free(message) && u16::from(message.priority) == priority
    }

    /// Puts the line of a message that can be taken and has this priority, where `count` lines may
    /// be put, and answers how many more may be.
    fn put_free(
        self,
        alloc: Global,
        printer: &mut Printer<'_>,
        message: &Message,
        priority: u16,
        count: u32,
    ) -> Result<u32, Memory>
        ensures { IfOk result (PutsFree self.at self.now priority count (message.now ∷ [])
            printer.old printer.new) }
    {
        if count == 0 {
            return Ok(0);
        }
        if !self.is_free_of(priority, message) {
            return Ok(count);
        }
        put_message(alloc, printer, message, self.now)?;
        Ok(count - 1)
    }

    /// The same of each message of a list.
    fn put_each(
        self,
        alloc: Global,
        printer: &mut Printer<'_>,
        messages: &SplitSlice<'_, Message>,
        priority: u16,
        count: u32,
    ) -> Result<u32, Memory>
        ensures { IfOk result (PutsFree self.at self.now priority count messages.now
            printer.old printer.new) }
    {
        let mut more = count;
        for index in 0..messages.len() {
            let message = messages.at(index);
            more = self.put_free(alloc, printer, message, priority, more)?;
        }
        Ok(more)
    }

    /// The same of both lists of a place.
    fn put_lists(
        self,
        alloc: Global,
        printer: &mut Printer<'_>,
        durable: &SplitSlice<'_, Message>,
        express: &SplitSlice<'_, Message>,
        priority: u16,
        count: u32,
    ) -> Result<u32, Memory>
        ensures { IfOk result (PutsFree self.at self.now priority count
            (durable.now ++ express.now) printer.old printer.new) }
    {
        let more = self.put_each(alloc, printer, durable, priority, count)?;
        self.put_each(alloc, printer, express, priority, more)
    }

    /// Puts the lines of the messages that would be taken, by their priorities from
    /// the greatest one on.
    fn put_by_priority(
        self,
        alloc: Global,
        printer: &mut Printer<'_>,
        durable: &SplitSlice<'_, Message>,
        express: &SplitSlice<'_, Message>,
        count: u32,
    ) -> Result<(), Memory>
        ensures { OnOk result (PutsTaken self.at count self.now (durable.now ++ express.now)
            printer.old printer.new) }
    {
        let top = self.top_priority(durable).max(self.top_priority(express));
        let mut priority = u16::from(top) + 1;
        let mut more = count;
        while priority > 0 && more > 0 {
            priority -= 1;
            more = self.put_lists(alloc, printer, durable, express, priority, more)?;
        }
        Ok(())
    }
}

/// Puts the lines of the messages of a place that would be taken one after
/// another, at most `count`.
pub(crate) fn put_taken(
    alloc: Global,
    printer: &mut Printer<'_>,
    queues: &Queues,
    at: EntryPlace,
    count: u32,
    now: u32,
) -> Result<(), Memory>
    ensures { OnOk result (PutsTaken at count now (held_at queues.now.lists at)
        printer.old printer.new) }
{
    let Some(durable) = queues.messages_at(at, Lane::Durable) else {
        return Ok(());
    };
    let Some(express) = queues.messages_at(at, Lane::Express) else {
        return Ok(());
    };
    let taking = Taking { at, now };
    taking.put_by_priority(alloc, printer, &durable, &express, count)
}
