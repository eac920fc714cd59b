//! Plans, read from forms.
//!
//! Stands on rc_form and rc_rules.
#![tactic(auto)]

mod draft;
mod fail;
mod forms;
mod matches;
mod reading;
mod strategies;

pub use fail::PlanFail;
pub use rc_play_spec::{PlanFault, PlanKind};
pub use reading::plan_of;
