ghost use Rattle.std.specs.Prelude.{◌≡◌};
ghost use Rattle.mqb_svg.specs.Sides.{other, same_side};

/// One of the two managers.
#[derive(Clone, Copy)]
pub enum Side {
    Alpha,
    Beta,
}

impl Side {
    /// The manager that one is connected with.
    pub fn other(self) -> Side
        ensures { result ≡ other self }
    {
        match self {
            Side::Alpha => Side::Beta,
            Side::Beta => Side::Alpha,
        }
    }

    pub fn is(self, side: Side) -> bool
        ensures { result ≡ same_side self side }
    {
        match (self, side) {
            (Side::Alpha, Side::Alpha) | (Side::Beta, Side::Beta) => true,
            (Side::Alpha, Side::Beta) | (Side::Beta, Side::Alpha) => false,
        }
    }
}
