//! What it is to a network that packets are delivered: one, several, those that a
//! connection sends of itself.
