ghost use Rattle.std.specs.Prelude.{◌≡◌, ◌≤◌, ◌<◌, ◌++◌, All, IsSomeAnd, IsTrue, OnErr, OnOk};
ghost use Rattle.std.specs.Prelude.{length, map, slice_get};
ghost use Rattle.std.specs.List.{flat_map};
ghost use Rattle.mqb_base.specs.QueueNames.{names_queue};
ghost use Rattle.mqb_base.specs.declared.roomed.TheConstants.{MAX_MEMBERS};
ghost use Rattle.mqb_model.specs.state.Valid.{IsValidState};
ghost use Rattle.mqb_orders.specs.Rows.{row_of};
ghost use Rattle.mqb_plain.specs.Lists.{messages_of};
ghost use Rattle.mqb_queue.specs.Places.{lists_at};
ghost use Rattle.mqb_snapshot.specs.Snapshot.{snapshot, spelled_counters};
ghost use Rattle.mqb_snapshot.specs.Spellable.{AreSized, IsSpellable};
ghost use Rattle.mqb_snapshot.specs.Spelled.{IsSized, counted, spelled_in, spelled_messages};
ghost use Rattle.mqb_snapshot.specs.Spelled.{spelled_out, spelled_places, spelled_plain};
ghost use Rattle.mqb_snapshot.specs.Spelled.{spelled_plan, spelled_queue};
ghost use Rattle.mqb_snapshot.specs.Values.{AreHeld, IsIn, IsOut, IsPlan, IsState};

use crate::tail::Tail;
use mqb_base::{EntryPlace, Lane, Memory};
use mqb_contents::Contents;
use mqb_deque::SplitSlice;
use mqb_orders::{InRow, OutRow};
use mqb_queue::Queues;
use std::alloc::Global;
use std::mem;

impl Tail {
    /// The plans of queues.
    fn plans(&mut self, queues: &Queues) -> Result<(), Memory>
        ensures added { OnOk result (self.new.text ≡
            self.old.text ++ counted (λ q. spelled_plan q.plan) queues.now.lists.queues) }
        ensures front { self.new.front ≡ self.old.front }
        ensures typed { OnOk result (All (λ q. IsPlan q.plan) queues.now.lists.queues) }
    {
        let count = queues.count();
        self.u32(count)?;
        for k in 0..count {
            self.queue_plan(queues.plan(k))?;
        }
        Ok(())
    }

    /// The durable messages of a place that is there.
    fn place(&mut self, alloc: Global, queues: &Queues, at: EntryPlace) -> Result<(), Memory>
        requires { IsSomeAnd (lists_at queues.now.lists at) (λ l. All IsSized l.durable) }
        ensures added { OnOk result (IsSomeAnd (lists_at queues.now.lists at)
            (λ l. self.new.text ≡ self.old.text ++ spelled_messages l.durable)) }
        ensures front { self.new.front ≡ self.old.front }
        ensures typed { OnOk result (IsSomeAnd (lists_at queues.now.lists at)
            (λ l. AreHeld l.durable)) }
    {
        match (queues.messages_at(at, Lane::Durable), queues.len_at(at)) {
            (Some(messages), Some(_)) => self.messages(alloc, &messages),
            _ => unreachable!(),
        }
    }

    /// What the queue at an index and its journal hold.
    fn queue(&mut self, alloc: Global, queues: &Queues, k: u32) -> Result<(), Memory>
        requires queue { IsSomeAnd (slice_get queues.now.lists.queues k)
            (λ q. All IsSized q.lists.durable × All IsSized q.journal.durable) }
        requires few { k < MAX_MEMBERS }
        ensures added { OnOk result (IsSomeAnd (slice_get queues.now.lists.queues k)
            (λ q. self.new.text ≡ self.old.text ++ spelled_queue q)) }
        ensures front { self.new.front ≡ self.old.front }
        ensures typed { OnOk result (IsSomeAnd (slice_get queues.now.lists.queues k)
            (λ q. AreHeld q.lists.durable × AreHeld q.journal.durable)) }
    {
        self.place(alloc, queues, EntryPlace::Queue(k + 1))?;
        self.place(alloc, queues, EntryPlace::JournalOf(k + 1))
    }

    fn queues(&mut self, alloc: Global, queues: &Queues) -> Result<(), Memory>
        requires { All (λ q. All IsSized q.lists.durable × All IsSized q.journal.durable)
            queues.now.lists.queues }
        ensures added { OnOk result (self.new.text ≡
            self.old.text ++ flat_map spelled_queue queues.now.lists.queues) }
        ensures front { self.new.front ≡ self.old.front }
        ensures typed { OnOk result (All (λ q. AreHeld q.lists.durable × AreHeld q.journal.durable)
            queues.now.lists.queues) }
    {
        for k in 0..queues.count() {
            self.queue(alloc, queues, k)?;
        }
        Ok(())
    }

    fn places(&mut self, alloc: Global, queues: &Queues) -> Result<(), Memory>
        requires { AreSized queues.now.lists }
        ensures added { OnOk result (self.new.text ≡
            self.old.text ++ spelled_places queues.now.lists) }
        ensures front { self.new.front ≡ self.old.front }
        ensures queues { OnOk result (All (λ q. AreHeld q.lists.durable × AreHeld q.journal.durable)
            queues.now.lists.queues) }
        ensures dead { OnOk result (AreHeld queues.now.lists.dead.durable) }
        ensures dead_xact { OnOk result (AreHeld queues.now.lists.dead_xact.durable) }
        ensures journal { OnOk result (AreHeld queues.now.lists.journal.durable) }
    {
        self.queues(alloc, queues)?;
        self.place(alloc, queues, EntryPlace::Dead)?;
        self.place(alloc, queues, EntryPlace::DeadXact)?;
        self.place(alloc, queues, EntryPlace::Journal)
    }

    /// The recoverable messages for the peer at an index.
    fn waiting(&mut self, alloc: Global, contents: &Contents, k: u32) -> Result<(), Memory>
        requires { IsSomeAnd (slice_get contents.now.lists.plain k)
            (λ p. All IsSized (messages_of p.recoverable)) }
        ensures added { OnOk result (IsSomeAnd (slice_get contents.now.lists.plain k)
            (λ p. self.new.text ≡ self.old.text ++ spelled_plain p)) }
        ensures front { self.new.front ≡ self.old.front }
        ensures typed { OnOk result (IsSomeAnd (slice_get contents.now.lists.plain k)
            (λ p. AreHeld (messages_of p.recoverable))) }
    {
        let plain = contents.plain(k);
        let _count = plain.len();
        self.messages(alloc, &SplitSlice::new(plain.recoverable(), &[]))
    }

    fn waiting_for_all(&mut self, alloc: Global, contents: &Contents) -> Result<(), Memory>
        requires { All (λ p. All IsSized (messages_of p.recoverable)) contents.now.lists.plain }
        ensures added { OnOk result (self.new.text ≡
            self.old.text ++ flat_map spelled_plain contents.now.lists.plain) }
        ensures front { self.new.front ≡ self.old.front }
        ensures typed { OnOk result (All (λ p. AreHeld (messages_of p.recoverable))
            contents.now.lists.plain) }
    {
        for k in 0..contents.peers().len() as u32 {
            self.waiting(alloc, contents, k)?;
        }
        Ok(())
    }

    fn out_rows(&mut self, alloc: Global, rows: &[OutRow]) -> Result<(), Memory>
        requires few { length rows.now ≤ MAX_MEMBERS }
        requires named { All (λ row. IsTrue (names_queue row.destination)) (map row_of rows.now) }
        requires sized { All (λ row. All (λ k. IsSized k.message) row.kept) (map row_of rows.now) }
        ensures added { OnOk result (self.new.text ≡
            self.old.text ++ counted spelled_out (map row_of rows.now)) }
        ensures front { self.new.front ≡ self.old.front }
        ensures typed { OnOk result (All IsOut (map row_of rows.now)) }
    {
        self.u32(rows.len() as u32)?;
        for row in rows {
            self.out_row(alloc, row)?;
        }
        Ok(())
    }

    fn in_rows(&mut self, rows: &[InRow]) -> Result<(), Memory>
        requires few { length rows.now ≤ MAX_MEMBERS }
        requires named { All (λ row. IsTrue (names_queue row.destination)) rows.now }
        ensures added { OnOk result (self.new.text ≡ self.old.text ++ counted spelled_in rows.now) }
        ensures front { self.new.front ≡ self.old.front }
        ensures typed { OnOk result (All IsIn rows.now) }
    {
        self.u32(rows.len() as u32)?;
        for row in rows {
            self.in_row(row)?;
        }
        Ok(())
    }

    /// The next number, the next ordinal, and last the count at which a sequence is full.
    fn counters(&mut self, contents: &Contents) -> Result<(), Memory>
        ensures added { OnOk result (self.new.text ≡
            self.old.text ++ spelled_counters contents.now.lists) }
        ensures front { self.new.front ≡ self.old.front }
    {
        self.u32(contents.next_number())?;
        self.u32(contents.next_ordinal())?;
        self.u32(contents.roll())?;
        Ok(())
    }

    /// What a store stands for.
    fn contents(&mut self, alloc: Global, contents: &Contents) -> Result<(), Memory>
        requires { IsSpellable contents.now.lists }
        ensures added { OnOk result (self.new.text ≡ self.old.text ++ snapshot contents.now.lists) }
        ensures front { self.new.front ≡ self.old.front }
        ensures typed { OnOk result (IsState contents.now.lists) }
    {
        self.identity(contents.identity())?;
        self.identities(contents.peers())?;
        self.plans(contents.queues())?;
        self.places(alloc, contents.queues())?;
        self.waiting_for_all(alloc, contents)?;
        self.out_rows(alloc, contents.outs())?;
        self.in_rows(contents.ins())?;
        self.counters(contents)?;
        Ok(())
    }
}

/// Adds the bytes of what a store stands for at the end.
pub fn spell(alloc: Global, contents: &Contents, out: &mut Vec<u8>) -> Result<(), Memory>
    requires { IsValidState contents.now.lists }
    ensures spelled { OnOk result (out.new.items ≡
        out.old.items ++ snapshot contents.now.lists) }
    ensures typed { OnOk result (IsState contents.now.lists) }
    ensures refused { OnErr result (out.new.items ≡ out.old.items) }
{
    let mut tail = Tail::new(mem::replace(out, Vec::new(alloc)));
    let spelled = tail.contents(alloc, contents);
    *out = if spelled.is_ok() {
        tail.into_whole()
    } else {
        tail.into_front()
    };
    spelled
}
