//! Tests alone, of a worker: what no program shows.
#![tactic(auto)]

#[cfg(test)]
mod stops;
