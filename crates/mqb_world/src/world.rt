ghost use Rattle.std.specs.Prelude.{[], ◌≡◌, ◌≢◌, ◌⊎◌, Err, IfOk, List, None, OnOk, Some, false};
ghost use Rattle.std.specs.Prelude.{option_copied, true};
ghost use Rattle.mqb_model.specs.managers.Manager.{is_down};
ghost use Rattle.mqb_moves.specs.Seats.{IsHeldOn, records_of, seated};
ghost use Rattle.mqb_network.specs.Runs.{Move};
ghost use Rattle.mqb_outside.specs.Faults.{Rose};
ghost use Rattle.mqb_runs.specs.Events.{event_of};
ghost use Rattle.mqb_runs.specs.Guarantees.{AlwaysKeepsGuarantees};
ghost use Rattle.mqb_runs.specs.Streams.{AlwaysShowsStreams};
ghost use Rattle.mqb_script.specs.Formed.{IsFormed};
ghost use Rattle.mqb_script.specs.declared.grammar.Grammar.TheVariants.{Pair};
ghost use Rattle.mqb_turns.specs.mqb_seats.Lasting.{Lasts};
ghost use Rattle.mqb_traffic.specs.Networks.{notes_of};
ghost use Rattle.mqb_world.specs.Disks.{FarGoes, FaultsGo, RecordsGo, StaysAsLeft, SwitchGoes};
ghost use Rattle.mqb_world.specs.Disks.{failures_told, rewrites, switching};
ghost use Rattle.mqb_world.specs.Making.{HasBytes, IsEmpty, KeepBytes};
ghost use Rattle.mqb_world.specs.Standing.{Applied, Stands};
ghost use Rattle.mqb_world.specs.Worlds.{seat_at};

use crate::applying::proceed;
use crate::faults::WorldFault;
use crate::identities::{alpha, beta};
use crate::making::{find_empty, make};
use mqb_base::Line;
use mqb_history::{histories_are_orderly, runs_have_histories};
use mqb_moves::Manager;
use mqb_outside::{Medium, Power};
use mqb_runs::{runs_keep_guarantees, runs_show_streams};
use mqb_script::{Event, Which};
use mqb_traffic::Traffic;
use mqb_transcript::Reply;
use mqb_turns::Seat;
use std::alloc::Global;
use std::marker::Model;

/// Two managers, alpha and beta, each the other's peer and on a disk of its own, and the traffic
/// between them. What the packets say is on a medium.
#[derive(Debug)]
pub struct World {
    pub(crate) alloc: Global,
    pub(crate) alpha: Seat,
    pub(crate) beta: Seat,
    pub(crate) traffic: Traffic,
}

impl Model for World {
    ghost use Rattle.mqb_world.specs.Worlds.{WorldState};

    ghost Value = { WorldState };

    ghost view = { λ w. record { alpha = w.alpha; beta = w.beta; traffic = w.traffic } };
}

impl World {
    /// Makes both managers on empty disks. Both are looked at before one is written.
    ///
    /// # Errors
    /// `NotEmpty`: one of the disks has bytes, and both were only read. `DiskFault`, `Memory`.
    pub fn new<P: Power>(alloc: Global, first: &mut P, second: &mut P) -> Result<World, WorldFault>
        ensures stands { IfOk result (λ world. Stands world [] []) }
        ensures alpha { IfOk result (λ world. IsHeldOn (P.view first.new) world.alpha) }
        ensures beta { IfOk result (λ world. IsHeldOn (P.view second.new) world.beta) }
        ensures empty { OnOk result (IsEmpty (P.view first.old) × IsEmpty (P.view second.old)) }
        ensures not_empty { result ≡ Err WorldFault.NotEmpty
            → HasBytes (P.view first.old) ⊎ HasBytes (P.view second.old) }
        ensures memory { result ≡ Err WorldFault.Memory
            → IsEmpty (P.view first.old) × IsEmpty (P.view second.old) }
        ensures kept { KeepBytes (P.view first.old) (P.view first.new)
            (P.view second.old) (P.view second.new) }
        ensures disk_fault { result ≡ Err WorldFault.DiskFault
            → Rose (P.view first.old).faults (P.view first.new).faults
            ⊎ Rose (P.view second.old).faults (P.view second.new).faults }
        ensures never { result ≢ Err WorldFault.NetFull }
        ensures alpha_faults { OnOk result ((P.view first.new).faults ≡ (P.view first.old).faults) }
        ensures beta_faults { OnOk result
            ((P.view second.new).faults ≡ (P.view second.old).faults) }
        ensures alpha_switch { (P.view first.new).switch ≡ (P.view first.old).switch }
        ensures beta_switch { (P.view second.new).switch ≡ (P.view second.old).switch }
    {
        find_empty(first)?;
        find_empty(second)?;
        let own = alpha(alloc)?;
        let other = beta(alloc)?;
        let alpha = make(alloc, first, &own, &other)?;
        match make(alloc, second, &other, &own) {
            Ok(beta) => Ok(World {
                alloc,
                alpha,
                beta,
                traffic: Traffic::new(alloc),
            }),
            Err(fault) => {
                alpha.close();
                Err(fault)
            }
        }
    }

    /// One event of a script is asked of the managers, and told.
    ///
    /// # Errors
    /// `NetFull`: a packet of the event would pass the limit of the medium, which has those before
    /// it. `Memory`. The world is used no more then.
    pub fn apply<P: Power, M: Medium>(
        &mut self,
        event: &Event,
        first: &mut P,
        second: &mut P,
        medium: &mut M,
    ) -> Result<Reply, WorldFault>
        requires formed { IsFormed Pair event.now }
        requires stands { (ms : List Move) × Stands self.old (M.strings medium.old) ms }
        requires alpha { IsHeldOn (P.view first.old) self.old.alpha }
        requires beta { IsHeldOn (P.view second.old) self.old.beta }
        ensures applied { (ms : List Move) → Stands self.old (M.strings medium.old) ms →
            Applied ms (event_of event.now) self.new (M.strings medium.old) (M.strings medium.new)
            result }
        ensures guarantees { (ms : List Move) → Stands self.new (M.strings medium.new) ms →
            AlwaysKeepsGuarantees ms }
        ensures streams { (ms : List Move) → Stands self.new (M.strings medium.new) ms →
            AlwaysShowsStreams ms }
        ensures alpha { Lasts (P.view first.old) (P.view first.new) self.old.alpha self.new.alpha }
        ensures beta { Lasts (P.view second.old) (P.view second.new) self.old.beta self.new.beta }
        ensures alpha_switch { SwitchGoes (switching Which.Alpha event.now) (P.armed first.new)
            (P.view first.old).switch (P.view first.new).switch }
        ensures beta_switch { SwitchGoes (switching Which.Beta event.now) (P.armed second.new)
            (P.view second.old).switch (P.view second.new).switch }
        ensures alpha_faults { IfOk result (λ given. FaultsGo event.now (P.is_stopped first.new)
            (P.view first.old).faults (P.view first.new).faults
            (failures_told (notes_of self.new.traffic) Which.Alpha event.now given)) }
        ensures beta_faults { IfOk result (λ given. FaultsGo event.now (P.is_stopped second.new)
            (P.view second.old).faults (P.view second.new).faults
            (failures_told (notes_of self.new.traffic) Which.Beta event.now given)) }
        ensures alpha_records { IfOk result (λ given. RecordsGo (switching Which.Alpha event.now)
            given (records_of self.old.alpha) (records_of self.new.alpha)) }
        ensures beta_records { IfOk result (λ given. RecordsGo (switching Which.Beta event.now)
            given (records_of self.old.beta) (records_of self.new.beta)) }
        ensures alpha_far { IfOk result (λ given. FarGoes (rewrites Which.Alpha event.now)
            self.old.alpha given) }
        ensures beta_far { IfOk result (λ given. FarGoes (rewrites Which.Beta event.now)
            self.old.beta given) }
        ensures alpha_left { StaysAsLeft (switching Which.Alpha event.now) (P.view first.new) }
        ensures beta_left { StaysAsLeft (switching Which.Beta event.now) (P.view second.new) }
        ensures alpha_full { result ≡ Err WorldFault.NetFull
            → (P.view first.new).faults ≡ (P.view first.old).faults }
        ensures beta_full { result ≡ Err WorldFault.NetFull
            → (P.view second.new).faults ≡ (P.view second.old).faults }
        ensures not_empty { result ≢ Err WorldFault.NotEmpty }
        ensures disk_fault { result ≢ Err WorldFault.DiskFault }
    {
        runs_have_histories();
        histories_are_orderly();
        runs_keep_guarantees();
        runs_show_streams();
        let proceeded = proceed(
            &mut self.alpha,
            &mut self.beta,
            &mut self.traffic,
            event,
            first,
            second,
            medium,
        );
        match proceeded {
            Ok(reply) => Ok(reply),
            Err(fault) => Err(WorldFault::from(fault)),
        }
    }

    /// Lets both managers go; whatever they recorded stays on their disks.
    pub fn close(self) {
        let World {
            alloc: _,
            alpha,
            beta,
            traffic,
        } = self;
        alpha.close();
        beta.close();
        drop(traffic);
    }

    /// The lines of all records, in order.
    pub fn ledger(&self) -> &[Line]
        ensures { result.now ≡ self.now.traffic.ledger }
    {
        self.traffic.ledger()
    }

    /// A manager, where it is up.
    pub fn manager(&self, which: Which) -> Option<&Manager>
        ensures up { is_down (seated (seat_at self.now which)) ≡ false
            → option_copied result ≡ Some (seat_at self.now which).manager }
        ensures down { is_down (seated (seat_at self.now which)) ≡ true
            → option_copied result ≡ None }
    {
        match which {
            Which::Alpha => self.alpha.manager(),
            Which::Beta => self.beta.manager(),
        }
    }
}
