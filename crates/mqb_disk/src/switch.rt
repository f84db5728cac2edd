ghost use Rattle.std.specs.Prelude.{◌≡◌, ◌≤◌, Some, None, true, false};
ghost use Rattle.mqb_outside.specs.Faults.{Rose};
ghost use Rattle.mqb_outside.specs.Disk.{Counted};

use crate::image::Image;
use crate::last_left::LastLeft;
use mqb_outside::{Mode, Pick};

/// What comes of a device call.
#[derive(Clone, Copy, Debug, PartialEq, Eq)]
pub(crate) enum Turn {
    Works,
    /// It fails without effect.
    Fails,
    /// It takes place, and the power is cut off.
    Stops,
}

impl Turn {
    ghost use Rattle.mqb_disk.specs.Turns.{turn_by};

    fn by_failing(fails: bool) -> Turn
        ensures { result ≡ turn_by None fails }
    {
        if fails { Turn::Fails } else { Turn::Works }
    }
}

/// The power switch of a disk, with its count of faults.
#[derive(Debug, Drop)]
pub(crate) struct PowerSwitch {
    pub(crate) armed: Option<(u32, Mode)>,
    pub(crate) stopped: bool,
    pub(crate) restart_is_armed: bool,
    pub(crate) fails_next: bool,
    pub(crate) calls: u64,
    pub(crate) faults: u64,
    pub(crate) arms: u64,
    pub(crate) restarts: u64,
    pub(crate) last_pick: Option<Pick>,
    pub(crate) last_left: LastLeft,
}

impl PowerSwitch {
    ghost use Rattle.mqb_disk.specs.Turns.{turn_of, after_turn, after_restart, switched_on};
    ghost use Rattle.mqb_disk.specs.Switches.{power_in};

    pub(crate) fn new() -> PowerSwitch
        ensures power { power_in result ≡ switched_on }
        ensures calls { result.calls ≡ 0 }
        ensures faults { result.faults ≡ 0 }
        ensures arms { result.arms ≡ 0 }
        ensures restarts { result.restarts ≡ 0 }
        ensures pick { result.last_pick ≡ None }
        ensures last_left { result.last_left.contents ≡ None }
    {
        PowerSwitch {
            armed: None,
            stopped: false,
            restart_is_armed: false,
            fails_next: false,
            calls: 0,
            faults: 0,
            arms: 0,
            restarts: 0,
            last_pick: None,
            last_left: LastLeft::none(),
        }
    }

    /// Counts a device call, and says what comes of it. One that fails or stops
    /// is counted as a fault.
    pub(crate) fn turn(&mut self) -> Turn
        ensures turn { result ≡ turn_of (power_in self.old) }
        ensures power { power_in self.new ≡ after_turn (power_in self.old) }
        ensures counted { Counted 1 self.old.calls self.new.calls }
        ensures works { result ≡ Turn.Works → self.new.faults ≡ self.old.faults }
        ensures fails { result ≡ Turn.Fails → Rose self.old.faults self.new.faults }
        ensures stops { result ≡ Turn.Stops → Rose self.old.faults self.new.faults }
        ensures arms { self.new.arms ≡ self.old.arms }
        ensures restarts { self.new.restarts ≡ self.old.restarts }
        ensures pick { self.new.last_pick ≡ self.old.last_pick }
        ensures last_left { self.new.last_left ≡ self.old.last_left }
    {
        self.calls = self.calls.saturating_add(1);
        let turn = self.next_turn();
        if turn != Turn::Works {
            self.fault();
        }
        turn
    }

    fn next_turn(&mut self) -> Turn
        ensures turn { result ≡ turn_of (power_in self.old) }
        ensures power { power_in self.new ≡ after_turn (power_in self.old) }
        ensures calls { self.new.calls ≡ self.old.calls }
        ensures faults { self.new.faults ≡ self.old.faults }
        ensures arms { self.new.arms ≡ self.old.arms }
        ensures restarts { self.new.restarts ≡ self.old.restarts }
        ensures pick { self.new.last_pick ≡ self.old.last_pick }
        ensures last_left { self.new.last_left ≡ self.old.last_left }
    {
        if self.stopped {
            return Turn::Fails;
        }
        let fails = self.fails_next;
        self.fails_next = false;
        match self.armed {
            Some((call, mode)) if call > 1 => {
                self.armed = Some((call - 1, mode));
                Turn::by_failing(fails)
            }
            Some((_, Mode::Fail)) => {
                self.armed = None;
                Turn::Fails
            }
            Some((_, Mode::Stop)) => {
                self.armed = None;
                self.stopped = true;
                Turn::Stops
            }
            None => Turn::by_failing(fails),
        }
    }

    pub(crate) fn fault(&mut self)
        ensures fault { Rose self.old.faults self.new.faults }
        ensures rest { self.new ≡ record self.old { faults = self.new.faults } }
    {
        self.faults = self.faults.saturating_add(1);
    }

    pub(crate) fn arm(&mut self, call: u32, mode: Mode)
        ensures armed { self.new.armed ≡ Some (call, mode) }
        ensures counted { Counted 1 self.old.arms self.new.arms }
        ensures rest { self.new ≡ record self.old { armed = self.new.armed; arms = self.new.arms } }
    {
        self.armed = Some((call, mode));
        self.arms = self.arms.saturating_add(1);
    }

    /// The power is on again, over what the restart left.
    pub(crate) fn restart(&mut self, pick: Pick, left: &Image)
        ensures power { power_in self.new ≡ after_restart (power_in self.old) }
        ensures counted { Counted 1 self.old.restarts self.new.restarts }
        ensures pick { self.new.last_pick ≡ Some pick }
        ensures last_left { self.new.last_left.contents ≡ Some left.now.contents }
        ensures calls { self.new.calls ≡ self.old.calls }
        ensures faults { self.new.faults ≡ self.old.faults }
        ensures arms { self.new.arms ≡ self.old.arms }
    {
        self.armed = None;
        self.stopped = false;
        self.fails_next = self.restart_is_armed;
        self.restart_is_armed = false;
        self.restarts = self.restarts.saturating_add(1);
        self.last_pick = Some(pick);
        self.last_left = LastLeft::of(left);
    }
}
