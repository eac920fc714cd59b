//! Sheets as they are printed.
//!
//! [`print_sheet`] gives the bytes of a sheet's printed form, which `rc_sheet_spec` defines for its pure tree, and a
//! law says that the form stands for the sheet.
//!
//! Stands on rc_ast, never on rc_form.
#![tactic(auto)]

mod decks;
mod effects;
mod expressions;
mod items;
mod laws;
mod printer;
mod setup;
mod sheet;
mod unplaced_examples;
mod words;

pub use laws::printed_form_stands;
pub use sheet::print_sheet;
pub use unplaced_examples::{bare_forms, offsets_taken_away};
