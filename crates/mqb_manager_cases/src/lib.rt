//! Tests alone, of a manager and what stands above it: what no program shows. Connections whose calls fail or whose bytes come in pieces, replays whose devices
//! count or fail, a state that is read back, a disk that stops, over forms in memory. What the program shows by itself stands in the tables of `examples`.
#![tactic(auto)]

#[cfg(test)]
mod asking;
#[cfg(test)]
mod counting_medium;
#[cfg(test)]
mod orders;
#[cfg(test)]
mod pieces;
#[cfg(test)]
mod pushed;
#[cfg(test)]
mod replays;
#[cfg(test)]
mod runs;
#[cfg(test)]
mod scripts;
#[cfg(test)]
mod served;
#[cfg(test)]
mod states;
#[cfg(test)]
mod stores;
#[cfg(test)]
mod texts;
