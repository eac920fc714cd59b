//! Walks over the items and the score of a sheet, or over the location of a deck.
ghost use Rattle.std.specs.Prelude.{◌≡◌, OnOk};
ghost use Rattle.rc_form.specs.Form.{tree_of, trees_of, packed};
ghost use Rattle.rc_sheet_spec.specs.FormMentions.{gathered, all_gathered, var_words, bound_words, all_var_words};
ghost use Rattle.rc_resolve.specs.Mentions.{loc_mention};
ghost use Rattle.rc_resolve.specs.Known.{with_all, in_tree, in_trees, locs_alone, variables, body_in};

use crate::known::Known;
use crate::uses::is_binder;
use rc_form::Form;
use std::alloc::AllocError;

impl Known {
    /// Adds all names that are mentioned behind the setup.
    pub fn add_body(&mut self, body: &[Form]) -> Result<(), AllocError>
        ensures { OnOk result (self.new ≡ with_all self.old (body_in (packed (trees_of body.now)))) }
    {
        self.add_names(body)?;
        self.add_all_variables(body)
    }

    /// Adds the names that forms mention, but for variables: for each form those in its parts, and then its own.
    #[cycle(names)]
    fn add_names(&mut self, forms: &[Form]) -> Result<(), AllocError>
        ensures { OnOk result (self.new ≡ with_all self.old (in_trees (packed (trees_of forms.now)))) }
    {
        for form in forms {
            self.add_names_in(form)?;
        }
        Ok(())
    }

    #[cycle(names)]
    fn add_names_in(&mut self, form: &Form) -> Result<(), AllocError>
        ensures { OnOk result (self.new ≡ with_all self.old (in_tree (tree_of form.now))) }
    {
        match form {
            Form::Atom { .. } => Ok(()),
            Form::List { items, .. } => {
                let parts = items.as_slice();
                self.add_names(parts)?;
                self.add_own(parts)
            }
        }
    }

    /// Adds the locations that a form mentions: those in its parts, and then its own.
    #[cycle(locations)]
    pub fn add_locations_in(&mut self, form: &Form) -> Result<(), AllocError>
        ensures { OnOk result (self.new ≡ with_all self.old (locs_alone (gathered loc_mention (tree_of form.now)))) }
    {
        match form {
            Form::Atom { .. } => Ok(()),
            Form::List { items, .. } => {
                let parts = items.as_slice();
                self.add_locations(parts)?;
                self.add_own_location(parts)
            }
        }
    }

    #[cycle(locations)]
    fn add_locations(&mut self, forms: &[Form]) -> Result<(), AllocError>
        ensures { OnOk result (self.new
            ≡ with_all self.old (locs_alone (all_gathered loc_mention (packed (trees_of forms.now))))) }
    {
        for form in forms {
            self.add_locations_in(form)?;
        }
        Ok(())
    }

    /// Adds the variables that are bound in a form.
    #[cycle(binding)]
    fn add_variables(&mut self, form: &Form) -> Result<(), AllocError>
        ensures { OnOk result (self.new ≡ with_all self.old (variables (var_words (tree_of form.now)))) }
    {
        match form {
            Form::Atom { .. } => Ok(()),
            Form::List { items, .. } => self.add_bound(items.as_slice()),
        }
    }

    /// Adds the variables that are bound in a list of these parts.
    #[cycle(binding)]
    fn add_bound(&mut self, parts: &[Form]) -> Result<(), AllocError>
        ensures { OnOk result (self.new ≡ with_all self.old (variables (bound_words (packed (trees_of parts.now))))) }
    {
        let [head, domain, variable, rest @ ..] = parts else {
            return self.add_all_variables(parts);
        };
        if !is_binder(head) {
            return self.add_all_variables(parts);
        }
        self.add_variables(head)?;
        self.add_variables(domain)?;
        self.add_variable(variable)?;
        self.add_all_variables(rest)
    }

    #[cycle(binding)]
    fn add_all_variables(&mut self, forms: &[Form]) -> Result<(), AllocError>
        ensures { OnOk result (self.new ≡ with_all self.old (variables (all_var_words (packed (trees_of forms.now))))) }
    {
        for form in forms {
            self.add_variables(form)?;
        }
        Ok(())
    }
}
