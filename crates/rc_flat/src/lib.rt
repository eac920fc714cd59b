//! The flat machine: it plays a match on the code of its sheet, and where it notes its edits it can go back to where it
//! stood before. Another one goes home to the decision from which it is played onward again and again.
//!
//! Stands on rc_menu and rc_exec, never on rc_plain.
#![tactic(auto)]

mod calls;
mod decisions;
mod homing;
mod machine;
mod making;
mod marks;
mod moments;
mod naming;
mod place;
mod site;
mod stages;
mod stand;
mod state;
mod steps;
mod there;
mod undoing;

pub use homing::HomeMachine;
pub use machine::FlatMachine;
pub use marks::Mark;
pub use moments::Moment;
pub use place::ProgramCounter;
pub use site::place_of;
pub use stand::{Stand, write_control, write_menu};
pub use state::State;
pub use there::{ChoiceThere, StageThere, behind, choice_there};
