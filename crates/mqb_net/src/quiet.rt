ghost use Rattle.std.specs.Prelude.{◌≡◌, ◌-◌, ◌+◌, ◌≤◌, ◌<◌, ◌↔◌, IsTrue};

/// How long a connection waits, in milliseconds.
#[derive(Clone, Copy, Debug)]
pub(crate) struct Waits {
    /// For a peer that is silent, and for one to be reached.
    pub(crate) longest: u64,
    /// For a byte, where such a wait is the end of what comes.
    pub(crate) last: Option<u64>,
}

/// The fewest bytes that come within the longest wait from a peer that is not silent.
pub const MIN_BYTES: usize = 1024;

/// How long was waited, in milliseconds, since a byte went or `MIN_BYTES` came, and how
/// many came meanwhile.
#[derive(Clone, Copy, Debug)]
pub(crate) struct Quiet {
    max: u64,
    waited: u64,
    came: usize,
    ghost few: { came < 1024 },
}

impl Quiet {
    /// Nothing was waited for yet.
    pub(crate) fn new(max: u64) -> Quiet
        ensures { result.waited ≡ 0 }
    {
        Quiet {
            max,
            waited: 0,
            came: 0,
        }
    }

    /// Whether the peer is silent.
    pub(crate) fn is_over(&self) -> bool
        ensures { IsTrue result ↔ (self.now.max ≤ self.now.waited) }
    {
        self.waited >= self.max
    }

    /// How much longer may be waited.
    pub(crate) fn rest(&self) -> u64
        ensures { result ≡ self.now.max - self.now.waited }
    {
        self.max.saturating_sub(self.waited)
    }

    /// So long was waited.
    pub(crate) fn wait(&mut self, millis: u64)
        ensures { self.old.waited ≤ self.new.waited }
    {
        self.waited = self.waited.saturating_add(millis);
    }

    /// So many bytes came.
    pub(crate) fn come(&mut self, n: usize)
        ensures many { 1024 ≤ self.old.came + n → self.new.waited ≡ 0 }
        ensures few { self.old.came + n < 1024 → self.new.waited ≡ self.old.waited }
    {
        let came = self.came.saturating_add(n);
        if came < MIN_BYTES {
            self.came = came;
        } else {
            *self = Quiet::new(self.max);
        }
    }

    /// Some bytes went.
    pub(crate) fn go(&mut self)
        ensures { self.new.waited ≡ 0 }
    {
        *self = Quiet::new(self.max);
    }
}
