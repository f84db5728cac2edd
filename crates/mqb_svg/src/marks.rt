/// What an answer is marked with.
#[derive(Clone, Copy)]
pub enum Mark {
    Commit,
    Put,
    Refusal,
    Stop,
    Restart,
    Plain,
}
