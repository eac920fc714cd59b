//! Where bytes come from and where they go: sources, sinks, and a gate for workers.
//!
//! A caller is generic over [`Source`] and [`Sink`], whose contracts say which bytes a call gives
//! or takes and that a failure shows in a count of faults. [`read_all`] and [`write_all`] work over
//! any of them. [`Plain`], [`Bytes`] and [`Room`] stand in memory, and [`StdSource`] and
//! [`StdSink`] adapt the standard library's readers and writers.
//!
//! Stands on no other crate.
#![tactic(auto)]

mod adapters;
mod bytes;
mod calls;
mod errors;
mod examples;
mod gate;
mod plain;
mod room;
mod sink;
mod source;
mod whole;

pub use adapters::{StdSink, StdSource};
pub use bytes::Bytes;
pub use errors::{Failed, NoRoom, ReadFail, WriteFault};
pub use examples::{counts, least_counts, numbered_calls};
pub use gate::{Gate, OpenGate};
pub use plain::Plain;
pub use room::Room;
pub use sink::Sink;
pub use source::Source;
pub use whole::{read_all, write_all};
