/// Where the name of a queue leads: to this manager, and there to the queue of a number or to none;
/// to the peer at an index; or nowhere.
#[derive(Clone, Copy, Debug, PartialEq, Eq)]
pub enum Target {
    Here(Option<u32>),
    AtPeer(u32),
    Nowhere,
}
