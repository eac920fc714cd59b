//! Tests of commands: whole ones, over sources and sinks that fail, and by several workers; what `watch` and `rival`
//! have played, and how logs are read.
//!
//! Stands on rc_games and rc_house.
#![tactic(auto)]

#[cfg(test)]
mod expect;
#[cfg(test)]
mod game;
#[cfg(test)]
mod house;
#[cfg(test)]
mod logs;
#[cfg(test)]
mod ports;
#[cfg(test)]
mod rivals;
#[cfg(test)]
mod telling;
#[cfg(test)]
mod workers;
