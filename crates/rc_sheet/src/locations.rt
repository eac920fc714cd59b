//! Locations and stored numbers.
ghost use Rattle.std.specs.Prelude.{◌≡◌, length, slice_get};
ghost use Rattle.rc_form.specs.Form.{tree_of, trees_of, packed};
ghost use Rattle.rc_ast.specs.Names.{who_seen, loc_seen, num_seen};
ghost use Rattle.rc_sheet_spec.specs.Naming as model;
ghost use Rattle.rc_sheet.specs.ReadNames as reading;
ghost use Rattle.rc_sheet.specs.ReadParts as behind;
ghost use Rattle.rc_sheet.specs.Gives.{Gives};

use crate::fail::Unread;
use crate::names::{name_at, rule_at};
use crate::owners::holder_at;
use crate::reader::Reader;
use crate::scope::Scope;
use rc_ast::{Class, Loc, LocKind, Num, Who};
use rc_check::{Keyword, Rule, Symbol, is_form_word};
use rc_form::Form;

impl Reader {
    /// A location.
    #[tactic(auto, unfolding(crate::specs::ReadNames::loc_at))]
    pub(crate) fn location(&self, scope: &Scope, form: &Form) -> Result<Loc, Unread>
        ensures { Gives loc_seen result (reading.loc_at self.now scope.now (tree_of form.now)) }
    {
        match form {
            Form::Atom { .. } => Err(Unread::Meaningless),
            Form::List { items, span } => match rule_at(Symbol::Location, items.as_slice())? {
                Rule::Location => self.location_parts(scope, span.from, items.as_slice()),
                _ => Err(Unread::Meaningless),
            },
        }
    }

    /// The location behind a head.
    pub(crate) fn one_location(&self, scope: &Scope, parts: &[Form]) -> Result<Loc, Unread>
        requires { length parts.now ≡ 2 }
        ensures { Gives loc_seen result (behind.one_loc self.now scope.now (packed (trees_of parts.now))) }
    {
        let [_, loc] = parts else {
            return Err(Unread::Meaningless);
        };
        self.location(scope, loc)
    }

    /// The location of a list of these parts, which begins here.
    #[tactic(auto, unfolding(crate::specs::ReadNames::loc_parts))]
    pub(crate) fn location_parts(
        &self,
        scope: &Scope,
        from: u32,
        parts: &[Form],
    ) -> Result<Loc, Unread>
        requires { length parts.now ≡ 3 }
        ensures { Gives loc_seen result (reading.loc_parts self.now scope.now from (packed (trees_of parts.now))) }
    {
        let [holder, kind, name] = parts else {
            return Err(Unread::Meaningless);
        };
        let who = holder_at(scope, holder)?;
        let name = name_at(&self.names.locs, name)?;
        if !self.has_location(kind, class_of(who), name) {
            return Err(Unread::Meaningless);
        }
        Ok(Loc {
            who,
            name,
            at: from,
        })
    }

    /// Whether the locations of a name are of the kind that a word says, and of this class.
    fn has_location(&self, kind: &Form, class: Class, name: u16) -> bool
        ensures { result ≡ reading.is_loc_name (tree_of kind.now) class (slice_get self.now.locs name) }
    {
        match self.locs.get(usize::from(name)) {
            Some(loc) => is_form_word(kind_word(loc.kind), kind) && loc.class == class,
            None => false,
        }
    }

    /// A stored number.
    #[tactic(auto, unfolding(crate::specs::ReadNames::num_at))]
    pub(crate) fn counter(&self, scope: &Scope, form: &Form) -> Result<Num, Unread>
        ensures { Gives num_seen result (reading.num_at self.now scope.now (tree_of form.now)) }
    {
        match form {
            Form::Atom { .. } => Err(Unread::Meaningless),
            Form::List { items, .. } => match rule_at(Symbol::Counter, items.as_slice())? {
                Rule::Counter => self.counter_parts(scope, items.as_slice()),
                _ => Err(Unread::Meaningless),
            },
        }
    }

    /// The stored number of a list of these parts.
    #[tactic(auto, unfolding(crate::specs::ReadNames::num_parts))]
    pub(crate) fn counter_parts(&self, scope: &Scope, parts: &[Form]) -> Result<Num, Unread>
        requires { length parts.now ≡ 3 }
        ensures { Gives num_seen result (reading.num_parts self.now scope.now (packed (trees_of parts.now))) }
    {
        let [holder, sto, name] = parts else {
            return Err(Unread::Meaningless);
        };
        if !is_form_word(Keyword::Sto, sto) {
            return Err(Unread::Meaningless);
        }
        let who = holder_at(scope, holder)?;
        let name = name_at(&self.names.nums, name)?;
        if !self.has_counter(class_of(who), name) {
            return Err(Unread::Meaningless);
        }
        Ok(Num { who, name })
    }

    /// Whether the stored numbers of a name are of this class.
    fn has_counter(&self, class: Class, name: u16) -> bool
        ensures { result ≡ reading.is_num_name class (slice_get self.now.nums name) }
    {
        match self.nums.get(usize::from(name)) {
            Some(num) => num.class == class,
            None => false,
        }
    }
}

/// The word of a kind of locations.
fn kind_word(kind: LocKind) -> Keyword
    ensures { result ≡ reading.kind_keyword kind }
{
    match kind {
        LocKind::Vloc => Keyword::Vloc,
        LocKind::Iloc => Keyword::Iloc,
        LocKind::Hloc => Keyword::Hloc,
        LocKind::Mem => Keyword::Mem,
    }
}

/// Who an owner is one of.
pub fn class_of(who: Who) -> Class
    ensures { result ≡ model.class_of (who_seen who) }
{
    match who {
        Who::Game => Class::Game,
        Who::CurrentPlayer | Who::Var(_) => Class::Player,
        Who::CurrentTeam | Who::TeamOfCurrent | Who::TeamOfVar(_) => Class::Team,
    }
}
