//! Prints effects, each with a space before it.
ghost use Rattle.std.specs.Prelude.{◌≡◌, ◌∷◌, ◌++◌, [], OnOk};
ghost use Rattle.rc_base.specs.Tree.{printed, printed_behind};
ghost use Rattle.rc_sheet_spec.specs.Printing.{packed, atom, keyword, row, named, binding, who_form, card_form, coll_form, loc_form, num_form, int_form, test_form, domain_form, spot_form, effect_form, effect_forms};
ghost use Rattle.rc_ast.specs.Names.{who_seen, loc_seen, num_seen};
ghost use Rattle.rc_ast.specs.Expressions.{card_seen, coll_seen, int_seen, test_seen, domain_seen};
ghost use Rattle.rc_ast.specs.Effects.{end_seen, effect_seen, effects_seen};
ghost use Rattle.rc_print.specs.Printing.{naming_seen, bound_seen};

use crate::expressions::{push_card, push_coll, push_domain, push_int, push_test};
use crate::printer::Printer;
use crate::words::{Variable, behind, push_binder, push_loc, push_num, push_part_who};
use rc_ast::{CardExpr, CollExpr, Domain, Effect, End, IntExpr, Loc, Num, Sheet, Test, Who};
use std::alloc::AllocError;

/// Adds what is told of a location.
fn push_at(
    out: &mut Printer,
    sheet: &Sheet,
    bound: &[Variable],
    head: &str,
    loc: &Loc,
) -> Result<(), AllocError>
    ensures { OnOk result (out.new.bytes.items ≡ out.old.bytes.items
        ++ 32 ∷ printed (row (atom head.now
        ∷ loc_form (naming_seen sheet.now) (bound_seen sheet.now bound.now) (loc_seen loc.now) ∷ []))) }
{
    out.open_part(head)?;
    push_loc(out, sheet, bound, loc)?;
    out.close()
}

/// Adds an end of a location.
fn push_spot(
    out: &mut Printer,
    sheet: &Sheet,
    bound: &[Variable],
    end: End,
    loc: &Loc,
) -> Result<(), AllocError>
    ensures { OnOk result (out.new.bytes.items ≡ out.old.bytes.items
        ++ 32 ∷ printed (spot_form (naming_seen sheet.now) (bound_seen sheet.now bound.now) (end_seen end)
        (loc_seen loc.now))) }
{
    match end {
        End::Top => push_at(out, sheet, bound, "top", loc),
        End::Bottom => push_at(out, sheet, bound, "bottom", loc),
    }
}

/// Adds what happens to a card at an end of a location.
fn push_placed(
    out: &mut Printer,
    sheet: &Sheet,
    bound: &[Variable],
    head: &str,
    card: &CardExpr,
    end: End,
    loc: &Loc,
) -> Result<(), AllocError>
    ensures { OnOk result (out.new.bytes.items ≡ out.old.bytes.items
        ++ 32 ∷ printed (row (atom head.now
        ∷ card_form (naming_seen sheet.now) (bound_seen sheet.now bound.now) (card_seen card.now)
        ∷ spot_form (naming_seen sheet.now) (bound_seen sheet.now bound.now) (end_seen end) (loc_seen loc.now) ∷ []))) }
{
    out.open_part(head)?;
    push_card(out, sheet, bound, card)?;
    push_spot(out, sheet, bound, end, loc)?;
    out.close()
}

/// Adds what happens to all of some cards.
fn push_moved(
    out: &mut Printer,
    sheet: &Sheet,
    bound: &[Variable],
    cards: &CollExpr,
    end: End,
    loc: &Loc,
) -> Result<(), AllocError>
    ensures { OnOk result (out.new.bytes.items ≡ out.old.bytes.items
        ++ 32 ∷ printed (row (keyword "move" ∷ keyword "all"
        ∷ coll_form (naming_seen sheet.now) (bound_seen sheet.now bound.now) (coll_seen cards.now)
        ∷ spot_form (naming_seen sheet.now) (bound_seen sheet.now bound.now) (end_seen end) (loc_seen loc.now) ∷ []))) }
{
    out.open_part("move all")?;
    push_coll(out, sheet, bound, cards)?;
    push_spot(out, sheet, bound, end, loc)?;
    out.close()
}

/// Adds that a card is forgotten.
fn push_forgotten(
    out: &mut Printer,
    sheet: &Sheet,
    bound: &[Variable],
    card: &CardExpr,
) -> Result<(), AllocError>
    ensures { OnOk result (out.new.bytes.items ≡ out.old.bytes.items
        ++ 32 ∷ printed (row (keyword "forget"
        ∷ card_form (naming_seen sheet.now) (bound_seen sheet.now bound.now) (card_seen card.now) ∷ []))) }
{
    out.open_part("forget")?;
    push_card(out, sheet, bound, card)?;
    out.close()
}

/// Adds who is next.
fn push_next(
    out: &mut Printer,
    sheet: &Sheet,
    bound: &[Variable],
    who: Who,
) -> Result<(), AllocError>
    ensures { OnOk result (out.new.bytes.items ≡ out.old.bytes.items
        ++ 32 ∷ printed (row (keyword "cycle" ∷ keyword "next"
        ∷ who_form (bound_seen sheet.now bound.now) (who_seen who) ∷ []))) }
{
    out.open_part("cycle next")?;
    push_part_who(out, sheet, bound, who)?;
    out.close()
}

/// Adds that cards are shown to an owner.
fn push_peeked(
    out: &mut Printer,
    sheet: &Sheet,
    bound: &[Variable],
    cards: &CollExpr,
    who: Who,
) -> Result<(), AllocError>
    ensures { OnOk result (out.new.bytes.items ≡ out.old.bytes.items
        ++ 32 ∷ printed (row (keyword "peek"
        ∷ coll_form (naming_seen sheet.now) (bound_seen sheet.now bound.now) (coll_seen cards.now)
        ∷ who_form (bound_seen sheet.now bound.now) (who_seen who) ∷ []))) }
{
    out.open_part("peek")?;
    push_coll(out, sheet, bound, cards)?;
    push_part_who(out, sheet, bound, who)?;
    out.close()
}

/// Adds what happens to a number that the game keeps.
fn push_change(
    out: &mut Printer,
    sheet: &Sheet,
    bound: &[Variable],
    head: &str,
    num: &Num,
    value: &IntExpr,
) -> Result<(), AllocError>
    ensures { OnOk result (out.new.bytes.items ≡ out.old.bytes.items
        ++ 32 ∷ printed (row (atom head.now
        ∷ num_form (naming_seen sheet.now) (bound_seen sheet.now bound.now) (num_seen num.now)
        ∷ int_form (naming_seen sheet.now) (bound_seen sheet.now bound.now) (int_seen value.now) ∷ []))) }
{
    out.open_part(head)?;
    push_num(out, sheet, bound, num)?;
    push_int(out, sheet, bound, value)?;
    out.close()
}

#[cycle(effects)]
fn push_effect(
    out: &mut Printer,
    sheet: &Sheet,
    bound: &[Variable],
    effect: &Effect,
) -> Result<(), AllocError>
    ensures { OnOk result (out.new.bytes.items ≡ out.old.bytes.items
        ++ 32 ∷ printed (effect_form (naming_seen sheet.now) (bound_seen sheet.now bound.now)
        (effect_seen effect.now))) }
{
    match effect {
        Effect::Move(card, end, loc) => push_placed(out, sheet, bound, "move", card, *end, loc),
        Effect::MoveAll(cards, end, loc) => push_moved(out, sheet, bound, cards, *end, loc),
        Effect::Remember(card, end, loc) => {
            push_placed(out, sheet, bound, "remember", card, *end, loc)
        }
        Effect::Forget(card) => push_forgotten(out, sheet, bound, card),
        Effect::Shuffle(loc) => push_at(out, sheet, bound, "shuffle", loc),
        Effect::Set(num, value) => push_change(out, sheet, bound, "set", num, value),
        Effect::Inc(num, value) => push_change(out, sheet, bound, "inc", num, value),
        Effect::Dec(num, value) => push_change(out, sheet, bound, "dec", num, value),
        Effect::If(test, effects) => push_guarded(out, sheet, bound, effects, test),
        Effect::Repeat(times, effects) => push_repeated(out, sheet, bound, effects, times),
        Effect::Each(domain, var, effects) => push_each(out, sheet, bound, effects, domain, *var),
        Effect::Next(who) => push_next(out, sheet, bound, *who),
        Effect::Reverse => out.keyword(" (cycle reverse)"),
        Effect::Peek(cards, who) => push_peeked(out, sheet, bound, cards, *who),
    }
}

/// Adds effects that a test guards.
#[cycle(effects)]
pub fn push_guarded(
    out: &mut Printer,
    sheet: &Sheet,
    bound: &[Variable],
    effects: &Vec<Effect>,
    guard: &Test,
) -> Result<(), AllocError>
    ensures { OnOk result (out.new.bytes.items ≡ out.old.bytes.items
        ++ 32 ∷ printed (row (keyword "if"
        ∷ test_form (naming_seen sheet.now) (bound_seen sheet.now bound.now) (test_seen guard.now)
        ∷ effect_forms (naming_seen sheet.now) (bound_seen sheet.now bound.now) (effects_seen effects.now.items)))) }
{
    out.open_part("if")?;
    push_test(out, sheet, bound, guard)?;
    push_effects(out, sheet, bound, effects)?;
    out.close()
}

#[cycle(effects)]
fn push_repeated(
    out: &mut Printer,
    sheet: &Sheet,
    bound: &[Variable],
    effects: &Vec<Effect>,
    times: &IntExpr,
) -> Result<(), AllocError>
    ensures { OnOk result (out.new.bytes.items ≡ out.old.bytes.items
        ++ 32 ∷ printed (row (keyword "repeat"
        ∷ int_form (naming_seen sheet.now) (bound_seen sheet.now bound.now) (int_seen times.now)
        ∷ effect_forms (naming_seen sheet.now) (bound_seen sheet.now bound.now) (effects_seen effects.now.items)))) }
{
    out.open_part("repeat")?;
    push_int(out, sheet, bound, times)?;
    push_effects(out, sheet, bound, effects)?;
    out.close()
}

/// Adds effects that run over players or cards.
#[cycle(effects)]
fn push_each(
    out: &mut Printer,
    sheet: &Sheet,
    bound: &[Variable],
    effects: &Vec<Effect>,
    domain: &Domain,
    var: u32,
) -> Result<(), AllocError>
    ensures { OnOk result (out.new.bytes.items ≡ out.old.bytes.items
        ++ 32 ∷ printed (row (keyword "all"
        ∷ domain_form (naming_seen sheet.now) (bound_seen sheet.now bound.now) (domain_seen domain.now)
        ∷ named (naming_seen sheet.now).names.vars var
        ∷ effect_forms (naming_seen sheet.now) (binding (naming_seen sheet.now) (bound_seen sheet.now bound.now) var)
        (effects_seen effects.now.items)))) }
{
    let within = behind(out, sheet, bound, var)?;
    out.open_part("all")?;
    push_domain(out, sheet, bound, domain)?;
    push_binder(out, sheet, var)?;
    push_effects(out, sheet, &within, effects)?;
    out.close()
}

#[cycle(effects)]
pub fn push_effects(
    out: &mut Printer,
    sheet: &Sheet,
    bound: &[Variable],
    effects: &Vec<Effect>,
) -> Result<(), AllocError>
    ensures { OnOk result (out.new.bytes.items ≡ out.old.bytes.items
        ++ printed_behind (packed (effect_forms (naming_seen sheet.now) (bound_seen sheet.now bound.now)
        (effects_seen effects.now.items)))) }
{
    for effect in effects {
        push_effect(out, sheet, bound, effect)?;
    }
    Ok(())
}
