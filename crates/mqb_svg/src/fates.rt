/// What became of a packet.
#[derive(Clone, Copy)]
pub enum Fate {
    /// It came, once and in its turn.
    Came,
    /// It did not come.
    Lost,
    /// It had come before.
    Repeated,
    /// One that its sender sent later had come before it.
    Late,
}
