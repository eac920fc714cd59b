//! The naming of a form.
ghost use Rattle.std.specs.Prelude.{◌≡◌, ◌≤◌, length, IfOk};
ghost use Rattle.rc_form.specs.Form.{tree_of};
ghost use Rattle.rc_sheet_spec.specs.FormMentions.{names_of};
ghost use Rattle.rc_resolve.specs.Mentions.{mentions_of};
ghost use Rattle.rc_resolve.specs.Known.{with_all, none};
ghost use Rattle.rc_resolve.specs.Naming as spec;

use crate::known::Known;
use crate::sheet_parts::{body, setup_lines};
use rc_ast::{LocName, Names, NumName};
use rc_form::Form;
use std::alloc::{AllocError, Global};

/// What the numbers in a sheet stand for: its words, each numbered by its place in its list, and of each name of a
/// location or of a stored number what its first mention says.
#[derive(Debug, Drop)]
pub struct Naming {
    pub names: Names,
    pub locs: Vec<LocName>,
    pub nums: Vec<NumName>,
}

/// The naming of a form whose shape is right. Names are numbered by their first mention in the printed order, in which
/// decks come first, then points, then what follows the setup. The time is linear in the length of the form, but for
/// names: each is found in an ordered index of those before.
///
/// The only error is want of memory.
pub fn naming_of(alloc: Global, form: &Form) -> Result<Naming, AllocError>
    requires locs { length (names_of (tree_of form.now)).locs ≤ 65536 }
    requires nums { length (names_of (tree_of form.now)).nums ≤ 65536 }
    ensures names { IfOk result (λ naming. spec.naming_seen naming ≡ spec.naming_of (tree_of form.now)) }
{
    let known = known_of(alloc, form)?;
    known.naming(alloc)
}

/// All names that a form mentions.
pub fn known_of(alloc: Global, form: &Form) -> Result<Known, AllocError>
    ensures { IfOk result (λ known. known ≡ with_all none (mentions_of (tree_of form.now))) }
{
    let mut known = Known::new(alloc);
    known.add_form(form)?;
    Ok(known)
}

impl Known {
    ghost use Rattle.std.specs.Prelude.{OnOk};

    /// Adds all names that a form mentions.
    fn add_form(&mut self, form: &Form) -> Result<(), AllocError>
        ensures { OnOk result (self.new ≡ with_all self.old (mentions_of (tree_of form.now))) }
    {
        let lines = setup_lines(form);
        self.add_decks(lines)?;
        self.add_all_points(lines)?;
        self.add_body(body(form))
    }
}
