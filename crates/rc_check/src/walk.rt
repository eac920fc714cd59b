//! The walk over all parts of a form, in the order of the text.
ghost use Rattle.std.specs.Prelude.{◌≡◌, ℕ, false, [], ◌∷◌, ◌++◌, Some, option_map, Err, OnOk, OnErr};
ghost use Rattle.rc_base.specs.Tree.{list};
ghost use Rattle.rc_form.specs.Form.{tree_of, trees_of, packed};
ghost use Rattle.rc_check.specs.Checks.{Checks};
ghost use Rattle.rc_check.specs.Entered.{entered};
ghost use Rattle.rc_check.specs.Seen.{standing_seen};
ghost use Rattle.rc_check.specs.Summary as spec;
ghost use Rattle.rc_check.specs.SecondFaults as faults;
ghost use Rattle.rc_check.specs.SecondParts as parts_spec;

use crate::fail::SheetFail;
use crate::kinds::{atom_kind, form_kind};
use crate::names::WordList;
use crate::parts::word_in;
use crate::sides::is_quiet;
use crate::standing::{Setting, standing_in};
use crate::summary::Summary;
use crate::whole::Whole;
use crate::{Rule, rule_of};
use rc_form::{Form, WordRef};
use std::alloc::Global;

/// What the walk keeps: what the parts so far leave behind, and which attributes may stand before the next in a face.
#[derive(Drop)]
pub struct Walk<'a> {
    alloc: Global,
    seen: Summary<'a>,
    above: WordList<'a>,
}

impl<'a> Walk<'a> {
    /// The walk before the first part.
    pub fn new(alloc: Global) -> Walk<'a>
        ensures seen { result.seen ≡ spec.nothing_seen }
        ensures above { result.above ≡ [] }
    {
        Walk {
            alloc,
            seen: Summary::new(alloc),
            above: WordList::new(alloc),
        }
    }

    /// Looks at a part and at those in it.
    #[inline(always)]
    #[cycle(walking)]
    pub fn part(
        &mut self,
        whole: &Whole<'a>,
        at: &Setting<'_, '_, 'a>,
        part: &Form<'a>,
    ) -> Result<(), SheetFail>
        ensures walked { Checks (spec.check_all whole.now self.old.seen
            (parts_spec.parts_at (Some (standing_seen at.now self.old.above))
            (tree_of part.now))) result self.new.seen }
        ensures above { OnOk result (self.new.above ≡ self.old.above) }
    {
        match part {
            Form::Atom { word, span } => self.atom(whole, at, word, span.from),
            Form::List { items, span } => self.list(whole, at, items.as_slice(), span.from),
        }
    }

    /// Looks at an atom.
    fn atom(
        &mut self,
        whole: &Whole<'a>,
        at: &Setting<'_, '_, 'a>,
        word: &WordRef<'a>,
        from: u32,
    ) -> Result<(), SheetFail>
        ensures walked { Checks (spec.check_all whole.now self.old.seen
            (parts_spec.atom (standing_seen at.now self.old.above) word.now from ∷ [])) result self.new.seen }
        ensures above { OnOk result (self.new.above ≡ self.old.above) }
    {
        if let Some(kind) = atom_kind(whole, &self.seen, at, word.bytes()) {
            return Err(SheetFail::new(kind, from));
        }
        self.seen.see_atom(at, word.bytes())
    }

    /// Looks at a list and at its parts. It is called for lists alone: most parts are atoms, which are looked at in the
    /// loop.
    #[inline(never)]
    #[cycle(walking)]
    fn list(
        &mut self,
        whole: &Whole<'a>,
        at: &Setting<'_, '_, 'a>,
        parts: &[Form<'a>],
        from: u32,
    ) -> Result<(), SheetFail>
        ensures walked { (to : ℕ) → Checks (spec.check_all whole.now self.old.seen
            (parts_spec.parts_at (Some (standing_seen at.now self.old.above))
            (list (packed (trees_of parts.now)) from to)))
            result self.new.seen }
        ensures above { OnOk result (self.new.above ≡ self.old.above) }
    {
        let Some(rule) = rule_of(at.place, parts) else {
            return Ok(());
        };
        if let Err(fail) = self.form(whole, at, rule, parts, from) {
            return Err(fail);
        }
        self.parts(whole, at, rule, parts)
    }

    /// Looks at a form, but for its parts.
    fn form(
        &mut self,
        whole: &Whole<'a>,
        at: &Setting<'_, '_, 'a>,
        rule: Rule,
        parts: &[Form<'a>],
        from: u32,
    ) -> Result<(), SheetFail>
        ensures walked { Checks (spec.check_all whole.now self.old.seen
            (parts_spec.form (standing_seen at.now self.old.above) rule (packed (trees_of parts.now)) from ∷ []))
            result self.new.seen }
        ensures shallow { OnOk result (faults.is_deep at.now.around.now rule ≡ false) }
        ensures above { OnOk result (self.new.above ≡ self.old.above) }
    {
        if self.seen.settles(at.role, rule, parts) {
            return Ok(());
        }
        if let Some(kind) = form_kind(whole, &self.seen, at, &self.above, rule, parts) {
            return Err(SheetFail::new(kind, from));
        }
        self.seen.see_form(whole, rule, parts)
    }

    /// Looks at the parts of a form that isn't too deep.
    #[cycle(walking)]
    fn parts(
        &mut self,
        whole: &Whole<'a>,
        at: &Setting<'_, '_, 'a>,
        rule: Rule,
        parts: &[Form<'a>],
    ) -> Result<(), SheetFail>
        requires { faults.is_deep at.now.around.now rule ≡ false }
        ensures walked { Checks (spec.check_all whole.now self.old.seen
            (parts_spec.parts_in (standing_seen at.now self.old.above) rule (packed (trees_of parts.now)) 0
            (packed (trees_of parts.now)))) result self.new.seen }
        ensures above { OnOk result (self.new.above ≡ self.old.above) }
    {
        let inner = match at.around.inner(self.alloc, rule, parts) {
            Ok(inner) => inner,
            Err(fail) => return Err(fail),
        };
        let outer_count = self.above.len();
        if let Err(fail) = self.enter(rule, parts) {
            return Err(fail);
        }
        for (index, part) in parts.iter().enumerate() {
            let standing = standing_in(at.role, &*at.around, &inner, rule, parts, index);
            if let Err(fail) = self.part_in(whole, standing, part) {
                return Err(fail);
            }
            if let Err(fail) = self.leave(rule, part) {
                return Err(fail);
            }
        }
        self.above.truncate(outer_count);
        Ok(())
    }

    /// Looks at a part and at those in it, where it stands somewhere.
    #[inline(always)]
    #[cycle(walking)]
    fn part_in(
        &mut self,
        whole: &Whole<'a>,
        standing: Option<Setting<'_, '_, 'a>>,
        part: &Form<'a>,
    ) -> Result<(), SheetFail>
        ensures walked { Checks (spec.check_all whole.now self.old.seen
            (parts_spec.parts_at (option_map (λ at. standing_seen at self.old.above) standing.entry)
            (tree_of part.now)))
            result self.new.seen }
        ensures above { OnOk result (self.new.above ≡ self.old.above) }
    {
        let Some(at) = standing else {
            return Ok(());
        };
        if is_quiet(part, at.place, at.role) {
            return Ok(());
        }
        // a copy, so that the setting of a quiet part takes no place in memory
        let setting = at;
        self.part(whole, &setting, part)
    }

    /// The attribute of a group may stand before its branches.
    #[tactic(auto, using(crate::proofs::Above::at_start))]
    fn enter(&mut self, rule: Rule, parts: &[Form<'a>]) -> Result<(), SheetFail>
        ensures above { OnOk result (self.new.above ≡ self.old.above ++ entered rule (packed (trees_of parts.now))) }
        ensures seen { self.new.seen ≡ self.old.seen }
        ensures memory { OnErr result (result ≡ Err SheetFail.Memory) }
    {
        if rule == Rule::Group {
            self.above.push(word_in(0, parts))?;
        }
        Ok(())
    }

    /// The attributes of a group of a face may stand before the groups behind it.
    fn leave(&mut self, rule: Rule, part: &Form<'a>) -> Result<(), SheetFail>
        ensures above { OnOk result (self.new.above
            ≡ self.old.above ++ parts_spec.attributes_behind rule (tree_of part.now)) }
        ensures seen { self.new.seen ≡ self.old.seen }
        ensures memory { OnErr result (result ≡ Err SheetFail.Memory) }
    {
        if rule == Rule::Deck || rule == Rule::Branch {
            self.above.push_attributes(part)?;
        }
        Ok(())
    }
}
