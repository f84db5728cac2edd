use mqb_base::{Message, TxHead};

/// A transactional message with its place in a sequence.
#[derive(Debug, Drop)]
pub struct Link {
    pub message: Message,
    pub tx: TxHead,
}
