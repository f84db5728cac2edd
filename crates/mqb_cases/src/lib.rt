//! Tests alone. Of lists: with room, and of messages, by calls that no program makes. Of devices:
//! disks in memory and in a file, the calls of a journal, and connections over TCP.
#![tactic(auto)]

#[cfg(test)]
mod copies;
#[cfg(test)]
mod disks;
#[cfg(test)]
mod journals;
#[cfg(test)]
mod lists_with_room;
#[cfg(test)]
mod network;
#[cfg(test)]
mod plain;
#[cfg(test)]
mod queues;
#[cfg(test)]
mod rows;
#[cfg(test)]
mod samples;
