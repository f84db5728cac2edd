ghost use Rattle.std.specs.Prelude.{◌≡◌};
ghost use Rattle.mqb_outside.specs.Disk.{Counted};
ghost use Rattle.mqb_outside.specs.Faults.{Rose};
ghost use Rattle.mqb.specs.Disks.{no_disk_view};

use mqb_base::Failed;
use mqb_outside::{Disk, Mode, Pick, Power, reach};

/// A disk that is not there: each call fails.
#[derive(Debug, Drop)]
pub struct NoDisk {
    calls: u64,
    faults: u64,
    armed: Option<(u32, Mode)>,
    arms: u64,
    restarts: u64,
    last_pick: Option<Pick>,
    reached: u64,
}

impl NoDisk {
    pub fn new() -> NoDisk {
        NoDisk {
            calls: 0,
            faults: 0,
            armed: None,
            arms: 0,
            restarts: 0,
            last_pick: None,
            reached: 0,
        }
    }

    // Counts a call that failed.
    fn fail(&mut self) -> Failed
        ensures calls { Counted 1 self.old.calls self.new.calls }
        ensures faults { Rose self.old.faults self.new.faults }
        ensures reached { self.new.reached ≡ self.old.reached }
        ensures switch { (no_disk_view self.new).switch ≡ (no_disk_view self.old).switch }
    {
        self.calls = self.calls.saturating_add(1);
        self.faults = self.faults.saturating_add(1);
        Failed
    }
}

impl Disk for NoDisk {
    ghost use Rattle.mqb.specs.Disks.{no_disk_view};
    ghost use Rattle.mqb.specs.lemmas.Disks.{no_disk_lawful};

    ghost view = { no_disk_view };

    ghost lawful = { no_disk_lawful };

    fn len(&mut self) -> Result<u64, Failed> {
        Err(self.fail())
    }

    fn read_at(&mut self, at: u64, buf: &mut [u8]) -> Result<(), Failed> {
        self.reached = reach(self.reached, at, buf.len());
        Err(self.fail())
    }

    #[tactic(auto, using(crate::proofs::Empty::still_torn))]
    fn write_at(&mut self, _at: u64, _bytes: &[u8]) -> Result<(), Failed> {
        Err(self.fail())
    }

    #[tactic(auto, using(crate::proofs::Empty::still_cut))]
    fn cut(&mut self, _len: u64) -> Result<(), Failed> {
        Err(self.fail())
    }

    fn sync(&mut self) -> Result<(), Failed> {
        Err(self.fail())
    }
}

impl Power for NoDisk {
    ghost use Rattle.std.specs.Prelude.{[], false, refl};

    ghost armed = { λ d. d.armed };

    ghost is_stopped = { λ d. false };

    ghost tells = { λ d. ([], refl) };

    fn arm(&mut self, call: u32, mode: Mode) {
        self.armed = Some((call, mode));
        self.arms = self.arms.saturating_add(1);
    }

    fn stopped(&self) -> bool {
        false
    }

    fn restart(&mut self, pick: Pick) {
        self.armed = None;
        self.restarts = self.restarts.saturating_add(1);
        self.last_pick = Some(pick);
    }
}
