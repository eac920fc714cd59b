//! Tests of searches: how many items a search tries.
//!
//! Stands on rc_search, rc_games and rc_trick.
#![tactic(auto)]

#[cfg(test)]
mod pruning;
