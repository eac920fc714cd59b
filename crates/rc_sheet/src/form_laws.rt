//! Laws of forms and well formed sheets. No function here does anything.

mod faults;
mod one_sheet;
mod printing;

pub use faults::{a_sheet_has_its_shape, a_sheet_has_no_fault, a_sheet_has_no_second_fault};
pub use one_sheet::a_form_has_one_sheet;
pub use printing::{printed_sheet_reads_back, written_sheet_reads_back};
