//! Where the parts of a form stand.
ghost use Rattle.std.specs.Prelude.{◌≡◌, ◌<◌, length, option_map};
ghost use Rattle.rc_form.specs.Form.{trees_of, packed};
ghost use Rattle.rc_check.specs.Seen.{inner_seen, standing_seen};
ghost use Rattle.rc_check.specs.SecondParts as spec;

use crate::around::{Around, Inner};
use crate::role::Role;
use crate::{Rule, Symbol};
use rc_form::Form;

/// Where a part stands: its place in the grammar, its role, all parts of its list, and what is around it.
#[derive(Clone, Copy)]
pub struct Setting<'s, 'f, 'a> {
    pub place: Symbol,
    pub role: Role,
    pub beside: &'f [Form<'a>],
    pub around: &'s Around<'a>,
}

/// Where the part of a form at this index stands, if anywhere. The form has this role, this around it and that around
/// its parts.
#[tactic(auto, using(rc_form::proofs::FormLemmas::count_packed))]
pub fn standing_in<'s, 'f, 'a>(
    role: Role,
    around: &'s Around<'a>,
    inner: &'s Inner<'a>,
    rule: Rule,
    parts: &'f [Form<'a>],
    index: usize,
) -> Option<Setting<'s, 'f, 'a>>
    requires inside { index < length parts.now }
    requires inner { inner_seen around.now inner.now index
        ≡ spec.around_in around.now rule (packed (trees_of parts.now)) index }
    ensures { (outer : spec.Standing) → outer.role ≡ role → outer.around ≡ around.now
        → option_map (λ at. standing_seen at
        (spec.above_in outer.above rule (packed (trees_of parts.now)) index)) result
        ≡ spec.standing_in outer rule (packed (trees_of parts.now)) index }
{
    let place = rule.place_at(parts.len(), index)?;
    Some(Setting {
        place,
        role: role_in(role, rule, index),
        beside: parts,
        around: inner.at(around, index),
    })
}

/// The role of the part of a form at this index. The location of a spot takes what the spot takes.
#[inline(always)]
pub fn role_in(role: Role, rule: Rule, index: usize) -> Role
    ensures { result ≡ spec.role_in role rule index }
{
    match rule {
        Rule::TopOf | Rule::BottomOf => role,
        Rule::Branches | Rule::Values => Role::GivenValue,
        _ => match front_roles(rule).get(index) {
            Some(role) => *role,
            None => Role::No,
        },
    }
}

/// The roles of the first parts of each form.
#[inline(always)]
fn front_roles(rule: Rule) -> &'static [Role]
    ensures { result.now ≡ spec.front_roles rule }
{
    match rule {
        Rule::CreateDeck => &[Role::No, Role::No, Role::DeckLocation],
        Rule::Branch => &[Role::GivenValue],
        Rule::Move => &[Role::No, Role::No, Role::CardLocation],
        Rule::MoveAll => &[Role::No, Role::No, Role::No, Role::CardLocation],
        Rule::Remember => &[Role::No, Role::No, Role::ReferenceLocation],
        Rule::Shuffle => &[Role::No, Role::CardLocation],
        Rule::MaxCard | Rule::MinCard | Rule::Sum | Rule::PointsOf => {
            &[Role::No, Role::No, Role::No, Role::UsedMap]
        }
        Rule::Is => &[Role::No, Role::No, Role::UsedAttribute, Role::UsedValue],
        Rule::AttributeOf | Rule::Partition => &[Role::No, Role::No, Role::UsedAttribute],
        Rule::Equal | Rule::NotEqual => &[Role::No, Role::No, Role::SecondSide],
        _ => &[],
    }
}
