//! The rules of play: what a match is played by, where it stands, what it offers, who shuffles, and what comes out of
//! it.
//!
//! Stands on rc_flow, rc_table and rc_draw, never on rc_form or rc_code.
#![tactic(auto)]

mod about;
mod bound;
mod control;
mod dealer;
mod lookup;
mod machine;
mod menu;
mod offhand;
mod onward;
mod plan;
mod points;
mod range;
mod record;
mod shape;
mod sharing;
mod side_by_side;
mod stages;
mod teams;

pub use about::About;
pub use bound::{Bound, Bounds};
pub use control::{Control, Frame, Frames, Stop};
pub use dealer::{Dealer, MatchDealer};
pub use lookup::Lookup;
pub use machine::Machine;
pub use menu::{Item, Items, Menu, Scores, Spots};
pub use offhand::{keyed_pick, made_by, offhand_of, scripted_item};
pub use onward::go_on;
pub use plan::{Deal, Plan, Strategy};
pub use points::{rank_points, rank_points_of};
pub use record::{Ended, MatchRecord, Pick, Score, Standing};
pub use shape::shape_of;
pub use sharing::shared_about;
pub use side_by_side::{machines_go_alike, machines_stop_alike};
pub use stages::{class_of_stage, current_in, is_stage_of, owner_count};
pub use teams::team_in;
