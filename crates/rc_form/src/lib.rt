//! Reads the lists in parentheses that a text spells, and prints them.
//!
//! Stands on rc_base.
#![tactic(auto)]

mod examples;
mod fault;
mod form;
mod lexer;
mod literal;
mod print;
mod reader;
mod reading;
mod word;

pub use examples::{atoms, counted_lists, same_forms};
pub use fault::{FormFail, FormFault, FormKind};
pub use form::{Form, Parts, Span};
pub use literal::{integer, natural};
pub use print::{FormMemory, print_form, printed_form_reads_back};
pub use rc_base::Word;
pub use reading::{Forms, read_forms, texts_are_spelled_or_faulty};
pub use word::WordRef;
