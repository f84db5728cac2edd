/// How far an outgoing row has come: how many messages were committed, and the greatest number that
/// was offered and that was acknowledged.
#[derive(Clone, Copy, Debug, PartialEq, Eq)]
pub struct RowMarks {
    pub committed: u32,
    pub offered: u32,
    pub acked: u32,
}
