ghost use Rattle.std.specs.Prelude.{◌≡◌};
ghost use Rattle.mqb_script.specs.Managers.{host_of, index_of, other, which_at};

/// One of the two managers of a replay.
#[derive(Clone, Copy, Debug, PartialEq, Eq)]
pub enum Which {
    Alpha,
    Beta,
}

impl Which {
    /// The manager's host, which is also its word in a script.
    pub fn host(self) -> &'static [u8]
        ensures { result.now ≡ host_of self }
    {
        match self {
            Which::Alpha => b"alpha",
            Which::Beta => b"beta",
        }
    }

    /// Its index, by which the events of a script name it.
    pub fn index(self) -> u32
        ensures { result ≡ index_of self }
    {
        match self {
            Which::Alpha => 0,
            Which::Beta => 1,
        }
    }

    /// The manager of an index.
    pub fn at(index: u32) -> Which
        ensures { result ≡ which_at index }
    {
        if index == 0 {
            Which::Alpha
        } else {
            Which::Beta
        }
    }

    /// The manager that this one is connected with.
    pub fn other(self) -> Which
        ensures { result ≡ other self }
    {
        match self {
            Which::Alpha => Which::Beta,
            Which::Beta => Which::Alpha,
        }
    }
}
