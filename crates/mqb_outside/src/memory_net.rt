ghost use Rattle.std.specs.Prelude.{◌≡◌, ◌+◌, ◌-◌, ◌≤◌, ℕ, [], Some, vec_len, vec_capacity, map};
ghost use Rattle.std.specs.Prelude.{IfOk, IfSome, OnOk, OnErr, None};
ghost use Rattle.mqb_outside.specs.Faults.{HasCause, Rose};

use crate::conn::Conn;
use crate::conn_plan::ConnPlan;
use crate::memory_conn::MemoryConn;
use crate::net::Net;
use crate::{Sink, Source};
use mqb_base::{Failed, Memory};
use std::alloc::Global;

/// A net in memory, which keeps the connections that it takes back.
#[derive(Debug, Drop)]
pub struct MemoryNet {
    alloc: Global,
    plans: Vec<Option<ConnPlan>>,
    next: usize,
    finished: Vec<MemoryConn>,
    unfinished: usize,
    faults: u64,
    idle: u64,
    lost: u64,
    ghost within: { next ≤ vec_len plans },
    ghost room: { vec_len finished + unfinished + (vec_len plans - next) ≤ vec_capacity finished },
}

impl MemoryNet {
    ghost use Rattle.std.specs.Prelude.{◌<◌, drop, slice_get, IsSome, IsErr};
    ghost use Rattle.mqb_outside.specs.ConnPlans.{planned, planned_all, plan_in, first_of};
    ghost use Rattle.mqb_outside.specs.NetPlans.{upcoming};
    ghost use Rattle.mqb_outside.specs.Conns.{IsAsPlanned, held_by, taken_on};

    /// What its calls of `accept` and `connect` give, in order: each `None` is a call that fails,
    /// and so is each call past the end.
    pub fn new(alloc: Global, plans: Vec<Option<ConnPlan>>) -> Result<MemoryNet, Memory>
        ensures finished { IfOk result (λ net. ⟦<MemoryNet as Net>⟧.finished net ≡ Some []) }
        ensures unfinished { IfOk result (λ net. ⟦<MemoryNet as Net>⟧.unfinished net ≡ Some 0) }
        ensures faults { IfOk result (λ net. ⟦<MemoryNet as Net>⟧.faults net ≡ 0) }
        ensures idle { IfOk result (λ net. ⟦<MemoryNet as Net>⟧.idle net ≡ 0) }
        ensures lost { IfOk result (λ net. ⟦<MemoryNet as Net>⟧.lost net ≡ 0) }
        ensures upcoming { IfOk result (λ net. upcoming net ≡ planned_all plans.items) }
    {
        Ok(MemoryNet {
            alloc,
            finished: Vec::with_capacity(alloc, plans.len())?,
            plans,
            next: 0,
            unfinished: 0,
            faults: 0,
            idle: 0,
            lost: 0,
        })
    }

    /// The connections that were taken back, in order.
    pub fn finished(&self) -> &[MemoryConn]
        ensures { IfSome (⟦<MemoryNet as Net>⟧.finished self.now)
            (λ ended. ended ≡ map (λ c. record {
              address = ⟦<MemoryConn as Conn>⟧.address c;
              read_faults = ⟦<MemoryConn as Source>⟧.read_faults c;
              write_faults = ⟦<MemoryConn as Sink>⟧.write_faults c;
              given = ⟦<MemoryConn as Conn>⟧.given c;
              held = ⟦<MemoryConn as Source>⟧.held c;
              taken = ⟦<MemoryConn as Sink>⟧.taken c;
            }) result.now) }
    {
        self.finished.as_slice()
    }

    // The connection of the next plan, where there is one.
    fn give(&mut self) -> Result<MemoryConn, Failed>
        ensures planned { IfOk result
            (λ c. IfSome (first_of (upcoming self.old)) (λ plan. IsAsPlanned plan c)) }
        ensures refused { first_of (upcoming self.old) ≡ None → IsErr result }
        ensures passed { upcoming self.new ≡ drop 1 (upcoming self.old) }
        ensures given { IfOk result
            (λ c. ⟦<MemoryConn as Conn>⟧.given c ≡ ⟦<MemoryConn as Source>⟧.held c) }
        ensures taken { IfOk result (λ c. ⟦<MemoryConn as Sink>⟧.taken c ≡ Some []) }
        ensures read_faults { IfOk result (λ c. ⟦<MemoryConn as Source>⟧.read_faults c ≡ 0) }
        ensures write_faults { IfOk result (λ c. ⟦<MemoryConn as Sink>⟧.write_faults c ≡ 0) }
        ensures address { IfOk result (λ c. ⟦<MemoryConn as Conn>⟧.address c ≡ None) }
        ensures opened { OnOk result (self.new.unfinished ≡ self.old.unfinished + 1) }
        ensures unchanged { OnErr result (self.new.unfinished ≡ self.old.unfinished) }
        ensures finished { self.new.finished ≡ self.old.finished }
        ensures lost { self.new.lost ≡ self.old.lost }
        ensures idle { self.new.idle ≡ self.old.idle }
        ensures cause { HasCause self.old.faults self.new.faults result }
    {
        let at = self.pass();
        let Some(plan) = self.plan_at(at) else {
            return Err(self.fail());
        };
        let Ok(conn) = plan.open(self.alloc) else {
            return Err(self.fail());
        };
        self.unfinished += 1;
        Ok(conn)
    }

    fn fail(&mut self) -> Failed
        ensures fault { Rose self.old.faults self.new.faults }
        ensures rest { self.new ≡ record self.old { faults = self.new.faults } }
    {
        self.faults = self.faults.saturating_add(1);
        Failed
    }

    // The plan at a place, where there is one.
    #[tactic(auto, using(std::proofs::lemmas::Option::slice_get_within))]
    fn plan_at(&self, at: usize) -> Option<&ConnPlan>
        ensures some { IfSome result
            (λ plan. Some (planned plan.now) ≡ plan_in (slice_get self.now.plans.items at)) }
        ensures within { IsSome result → at < vec_len self.now.plans }
        ensures none { result ≡ None → plan_in (slice_get self.now.plans.items at) ≡ None }
    {
        match self.plans.get(at) {
            Some(plan) => plan.as_ref(),
            None => None,
        }
    }

    // Goes on to the next plan, and answers where the one stands that is passed.
    #[tactic(auto, using(crate::proofs::Planning::passed_on, crate::proofs::Planning::first_at))]
    fn pass(&mut self) -> usize
        ensures next { first_of (upcoming self.old)
            ≡ plan_in (slice_get self.old.plans.items result) }
        ensures passed { upcoming self.new ≡ drop 1 (upcoming self.old) }
        ensures plans { self.new.plans ≡ self.old.plans }
        ensures room { result < vec_len self.old.plans → self.new.next ≡ result + 1 }
        ensures place { result ≡ self.old.next }
        ensures finished { self.new.finished ≡ self.old.finished }
        ensures unfinished { self.new.unfinished ≡ self.old.unfinished }
        ensures faults { self.new.faults ≡ self.old.faults }
        ensures idle { self.new.idle ≡ self.old.idle }
        ensures lost { self.new.lost ≡ self.old.lost }
    {
        let at = self.next;
        self.next = self.plans.len().min(at.saturating_add(1));
        at
    }
}

impl Net for MemoryNet {
    type C = MemoryConn;

    ghost use Rattle.std.specs.Prelude.{◌<◌, ◌∷◌, ◌++◌, ◌≢◌, ◌↔◌, Ok, drop, false, length};
    ghost use Rattle.std.specs.Prelude.{IsErr, IsTrue};
    ghost use Rattle.mqb_outside.specs.ConnPlans.{first_of};
    ghost use Rattle.mqb_outside.specs.NetPlans.{faults_of, idle_of, lost_by, still_out};
    ghost use Rattle.mqb_outside.specs.NetPlans.{taken_back, upcoming};
    ghost use Rattle.mqb_outside.specs.Conns.{IsAsPlanned, address_of, held_by, read_faults_of};
    ghost use Rattle.mqb_outside.specs.Conns.{taken_on, write_faults_of};

    ghost faults = { faults_of };

    ghost idle = { idle_of };

    ghost lost = { lost_by };

    ghost finished = { λ n. Some (map (λ c. record {
      address = ⟦<MemoryConn as Conn>⟧.address c;
      read_faults = ⟦<MemoryConn as Source>⟧.read_faults c;
      write_faults = ⟦<MemoryConn as Sink>⟧.write_faults c;
      given = ⟦<MemoryConn as Conn>⟧.given c;
      held = ⟦<MemoryConn as Source>⟧.held c;
      taken = ⟦<MemoryConn as Sink>⟧.taken c;
    }) (taken_back n)) };

    ghost unfinished = { λ n. Some (still_out n) };

    ghost tells = { λ n told. told };

    /// A peer comes where a plan is left, be it one that fails.
    fn await_peer(&mut self, _seconds: u32) -> Result<bool, Failed>
        ensures planned { IfOk result (λ came. IsTrue came ↔ (0 < length (upcoming self.old))) }
        ensures none_came { result ≡ Ok false → Rose (idle_of self.old) (idle_of self.new) }
        ensures came { result ≢ Ok false → idle_of self.new ≡ idle_of self.old }
        ensures upcoming { upcoming self.new ≡ upcoming self.old }
        ensures unfinished { still_out self.new ≡ still_out self.old }
        ensures finished { taken_back self.new ≡ taken_back self.old }
        ensures lost { lost_by self.new ≡ lost_by self.old }
        ensures cause { HasCause (faults_of self.old) (faults_of self.new) result }
    {
        let comes = self.next < self.plans.len();
        if !comes {
            self.idle = self.idle.saturating_add(1);
        }
        Ok(comes)
    }

    fn accept(&mut self) -> Result<MemoryConn, Failed>
        ensures planned { IfOk result
            (λ c. IfSome (first_of (upcoming self.old)) (λ plan. IsAsPlanned plan c)) }
        ensures refused { first_of (upcoming self.old) ≡ None → IsErr result }
        ensures passed { upcoming self.new ≡ drop 1 (upcoming self.old) }
        ensures faultless { IfOk result (λ c. (read_faults_of c ≡ 0) × (write_faults_of c ≡ 0)) }
        ensures given { IfOk result (λ c. ⟦<MemoryConn as Conn>⟧.given c ≡ held_by c) }
        ensures taken { IfOk result (λ c. taken_on c ≡ Some []) }
        ensures address { IfOk result (λ c. address_of c ≡ None) }
        ensures opened { OnOk result (still_out self.new ≡ still_out self.old + 1) }
        ensures unchanged { OnErr result (still_out self.new ≡ still_out self.old) }
        ensures finished { taken_back self.new ≡ taken_back self.old }
        ensures lost { lost_by self.new ≡ lost_by self.old }
        ensures idle { idle_of self.new ≡ idle_of self.old }
        ensures cause { HasCause (faults_of self.old) (faults_of self.new) result }
    {
        self.give()
    }

    fn connect(&mut self, address: [u8; 4]) -> Result<MemoryConn, Failed>
        ensures planned { IfOk result
            (λ c. IfSome (first_of (upcoming self.old)) (λ plan. IsAsPlanned plan c)) }
        ensures refused { first_of (upcoming self.old) ≡ None → IsErr result }
        ensures passed { upcoming self.new ≡ drop 1 (upcoming self.old) }
        ensures faultless { IfOk result (λ c. (read_faults_of c ≡ 0) × (write_faults_of c ≡ 0)) }
        ensures given { IfOk result (λ c. ⟦<MemoryConn as Conn>⟧.given c ≡ held_by c) }
        ensures taken { IfOk result (λ c. taken_on c ≡ Some []) }
        ensures address { IfOk result (λ c. address_of c ≡ Some address) }
        ensures opened { OnOk result (still_out self.new ≡ still_out self.old + 1) }
        ensures unchanged { OnErr result (still_out self.new ≡ still_out self.old) }
        ensures finished { taken_back self.new ≡ taken_back self.old }
        ensures lost { lost_by self.new ≡ lost_by self.old }
        ensures idle { idle_of self.new ≡ idle_of self.old }
        ensures cause { HasCause (faults_of self.old) (faults_of self.new) result }
    {
        let conn = self.give()?;
        Ok(conn.to_address(address))
    }

    fn finish(&mut self, conn: MemoryConn)
        requires { 0 < still_out self.old }
        ensures finished { taken_back self.new ≡ taken_back self.old ++ conn ∷ [] }
        ensures lost { 0 < read_faults_of conn + write_faults_of conn
            → Rose (lost_by self.old) (lost_by self.new) }
        ensures kept { read_faults_of conn + write_faults_of conn ≡ 0
            → lost_by self.new ≡ lost_by self.old }
        ensures closed { still_out self.new ≡ still_out self.old - 1 }
        ensures upcoming { upcoming self.new ≡ upcoming self.old }
        ensures idle { idle_of self.new ≡ idle_of self.old }
        ensures faults { faults_of self.new ≡ faults_of self.old }
    {
        if conn.had_faults() {
            self.lost = self.lost.saturating_add(1);
        }
        self.unfinished -= 1;
        if self.finished.push(conn).is_err() {
            unreachable!();
        }
    }
}
