//! Prints expressions and tests, each with a space before it.
ghost use Rattle.std.specs.Prelude.{◌≡◌, ◌∷◌, ◌++◌, [], codes, OnOk};
ghost use Rattle.rc_base.specs.Tree.{printed, printed_behind};
ghost use Rattle.rc_sheet_spec.specs.Printing.{packed, atom, keyword, row, named, number_form, binding, who_form, attr_form, card_form, loc_form, coll_form, coll_forms, int_form, test_form, test_forms, sides, domain_form};
ghost use Rattle.rc_ast.specs.Names.{who_seen, loc_seen};
ghost use Rattle.rc_ast.specs.Expressions.{card_seen, coll_seen, colls_seen, int_seen, test_seen, tests_seen, domain_seen};
ghost use Rattle.rc_print.specs.Printing.{naming_seen, bound_seen};

use crate::printer::Printer;
use crate::words::{
    Variable, behind, push_binder, push_loc, push_num, push_part_variable, push_part_who, push_word,
};
use rc_ast::{CardExpr, CollExpr, Domain, IntExpr, Loc, Sheet, Test, Who};
use std::alloc::AllocError;

/// Adds the word of a point map behind its keyword.
fn push_map(out: &mut Printer, sheet: &Sheet, map: u16) -> Result<(), AllocError>
    ensures { OnOk result (out.new.bytes.items ≡ out.old.bytes.items
        ++ printed_behind (packed (keyword "using" ∷ named (naming_seen sheet.now).names.maps map ∷ []))) }
{
    out.keyword(" using")?;
    push_word(out, &sheet.names.maps, usize::from(map))
}

/// Adds the word of an attribute.
fn push_attr(out: &mut Printer, sheet: &Sheet, attr: u16) -> Result<(), AllocError>
    ensures { OnOk result (out.new.bytes.items ≡ out.old.bytes.items
        ++ 32 ∷ printed (named (naming_seen sheet.now).names.attrs attr)) }
{
    push_word(out, &sheet.names.attrs, usize::from(attr))
}

/// Adds the word of a value.
fn push_value(out: &mut Printer, sheet: &Sheet, value: u16) -> Result<(), AllocError>
    ensures { OnOk result (out.new.bytes.items ≡ out.old.bytes.items
        ++ 32 ∷ printed (named (naming_seen sheet.now).names.values value)) }
{
    push_word(out, &sheet.names.values, usize::from(value))
}

/// Adds a test of two owners.
fn push_owners(
    out: &mut Printer,
    sheet: &Sheet,
    bound: &[Variable],
    head: &str,
    first: Who,
    second: Who,
) -> Result<(), AllocError>
    ensures { OnOk result (out.new.bytes.items ≡ out.old.bytes.items
        ++ 32 ∷ printed (row (atom head.now ∷ who_form (bound_seen sheet.now bound.now) (who_seen first)
        ∷ who_form (bound_seen sheet.now bound.now) (who_seen second) ∷ []))) }
{
    out.open_part(head)?;
    push_part_who(out, sheet, bound, first)?;
    push_part_who(out, sheet, bound, second)?;
    out.close()
}

/// Adds a number.
fn push_number(out: &mut Printer, value: i64) -> Result<(), AllocError>
    ensures { OnOk result (out.new.bytes.items ≡ out.old.bytes.items ++ 32 ∷ printed (number_form value)) }
{
    out.space()?;
    out.number(value)
}

/// Adds a list of an atom alone.
fn push_bare(out: &mut Printer, head: &str) -> Result<(), AllocError>
    ensures { OnOk result (out.new.bytes.items ≡ out.old.bytes.items ++ 32 ∷ printed (row (atom head.now ∷ []))) }
{
    out.open_part(head)?;
    out.close()
}

#[cycle(expressions)]
pub fn push_card(
    out: &mut Printer,
    sheet: &Sheet,
    bound: &[Variable],
    card: &CardExpr,
) -> Result<(), AllocError>
    ensures { OnOk result (out.new.bytes.items ≡ out.old.bytes.items
        ++ 32 ∷ printed (card_form (naming_seen sheet.now) (bound_seen sheet.now bound.now) (card_seen card.now))) }
{
    match card {
        CardExpr::Var(var) => push_part_variable(out, sheet, bound, *var),
        CardExpr::Top(cards) => push_of(out, sheet, bound, "top", cards),
        CardExpr::Bottom(cards) => push_of(out, sheet, bound, "bottom", cards),
        CardExpr::Max(cards, map) => push_by_map(out, sheet, bound, "max", cards, *map),
        CardExpr::Min(cards, map) => push_by_map(out, sheet, bound, "min", cards, *map),
    }
}

/// Adds what is told of cards.
#[cycle(expressions)]
fn push_of(
    out: &mut Printer,
    sheet: &Sheet,
    bound: &[Variable],
    head: &str,
    cards: &CollExpr,
) -> Result<(), AllocError>
    ensures { OnOk result (out.new.bytes.items ≡ out.old.bytes.items
        ++ 32 ∷ printed (row (atom head.now
        ∷ coll_form (naming_seen sheet.now) (bound_seen sheet.now bound.now) (coll_seen cards.now) ∷ []))) }
{
    out.open_part(head)?;
    push_coll(out, sheet, bound, cards)?;
    out.close()
}

/// Adds what is told of cards by the points of a map.
#[cycle(expressions)]
fn push_by_map(
    out: &mut Printer,
    sheet: &Sheet,
    bound: &[Variable],
    head: &str,
    cards: &CollExpr,
    map: u16,
) -> Result<(), AllocError>
    ensures { OnOk result (out.new.bytes.items ≡ out.old.bytes.items
        ++ 32 ∷ printed (row (atom head.now
        ∷ coll_form (naming_seen sheet.now) (bound_seen sheet.now bound.now) (coll_seen cards.now)
        ∷ keyword "using" ∷ named (naming_seen sheet.now).names.maps map ∷ []))) }
{
    out.open_part(head)?;
    push_coll(out, sheet, bound, cards)?;
    push_map(out, sheet, map)?;
    out.close()
}

#[cycle(expressions)]
pub fn push_coll(
    out: &mut Printer,
    sheet: &Sheet,
    bound: &[Variable],
    cards: &CollExpr,
) -> Result<(), AllocError>
    ensures { OnOk result (out.new.bytes.items ≡ out.old.bytes.items
        ++ 32 ∷ printed (coll_form (naming_seen sheet.now) (bound_seen sheet.now bound.now) (coll_seen cards.now))) }
{
    match cards {
        CollExpr::Var(var) => push_part_variable(out, sheet, bound, *var),
        CollExpr::Loc(loc) => push_loc(out, sheet, bound, loc),
        CollExpr::Filter(inner, var, test) => {
            open_filter(out, sheet, bound, inner, *var)?;
            close_within(out, sheet, bound, *var, test)
        }
        CollExpr::Union(parts) => push_union(out, sheet, bound, parts),
        CollExpr::Known(loc) => push_known(out, sheet, bound, loc),
    }
}

/// Adds the cards of a location that the current player sees.
fn push_known(
    out: &mut Printer,
    sheet: &Sheet,
    bound: &[Variable],
    loc: &Loc,
) -> Result<(), AllocError>
    ensures { OnOk result (out.new.bytes.items ≡ out.old.bytes.items
        ++ 32 ∷ printed (row (keyword "known"
        ∷ loc_form (naming_seen sheet.now) (bound_seen sheet.now bound.now) (loc_seen loc.now) ∷ []))) }
{
    out.open_part("known")?;
    push_loc(out, sheet, bound, loc)?;
    out.close()
}

/// Opens the cards that a test holds of, with a variable behind those that it runs over.
#[cycle(expressions)]
fn open_filter(
    out: &mut Printer,
    sheet: &Sheet,
    bound: &[Variable],
    cards: &CollExpr,
    var: u32,
) -> Result<(), AllocError>
    ensures { OnOk result (out.new.bytes.items ≡ out.old.bytes.items ++ 32 ∷ 40 ∷ codes "filter"
        ++ 32 ∷ printed (coll_form (naming_seen sheet.now) (bound_seen sheet.now bound.now) (coll_seen cards.now))
        ++ 32 ∷ printed (named (naming_seen sheet.now).names.vars var)) }
{
    out.open_part("filter")?;
    push_coll(out, sheet, bound, cards)?;
    push_binder(out, sheet, var)
}

#[cycle(expressions)]
fn push_union(
    out: &mut Printer,
    sheet: &Sheet,
    bound: &[Variable],
    parts: &Vec<CollExpr>,
) -> Result<(), AllocError>
    ensures { OnOk result (out.new.bytes.items ≡ out.old.bytes.items
        ++ 32 ∷ printed (row (keyword "union"
        ∷ coll_forms (naming_seen sheet.now) (bound_seen sheet.now bound.now) (colls_seen parts.now.items)))) }
{
    out.open_part("union")?;
    for cards in parts {
        push_coll(out, sheet, bound, cards)?;
    }
    out.close()
}

#[cycle(expressions)]
pub fn push_int(
    out: &mut Printer,
    sheet: &Sheet,
    bound: &[Variable],
    int: &IntExpr,
) -> Result<(), AllocError>
    ensures { OnOk result (out.new.bytes.items ≡ out.old.bytes.items
        ++ 32 ∷ printed (int_form (naming_seen sheet.now) (bound_seen sheet.now bound.now) (int_seen int.now))) }
{
    match int {
        IntExpr::Lit(value) => push_number(out, *value),
        IntExpr::Num(num) => push_num(out, sheet, bound, num),
        IntExpr::Size(cards) => push_of(out, sheet, bound, "size", cards),
        IntExpr::Sum(cards, map) => push_by_map(out, sheet, bound, "sum", cards, *map),
        IntExpr::Points(card, map) => push_points(out, sheet, bound, card, *map),
        IntExpr::Add(a, b) => {
            open_with_int(out, sheet, bound, "+", a)?;
            close_with_int(out, sheet, bound, b)
        }
        IntExpr::Sub(a, b) => {
            open_with_int(out, sheet, bound, "-", a)?;
            close_with_int(out, sheet, bound, b)
        }
        IntExpr::Mul(a, b) => {
            open_with_int(out, sheet, bound, "*", a)?;
            close_with_int(out, sheet, bound, b)
        }
    }
}

/// Adds what a card is worth by the points of a map.
#[cycle(expressions)]
fn push_points(
    out: &mut Printer,
    sheet: &Sheet,
    bound: &[Variable],
    card: &CardExpr,
    map: u16,
) -> Result<(), AllocError>
    ensures { OnOk result (out.new.bytes.items ≡ out.old.bytes.items
        ++ 32 ∷ printed (row (keyword "points"
        ∷ card_form (naming_seen sheet.now) (bound_seen sheet.now bound.now) (card_seen card.now)
        ∷ keyword "using" ∷ named (naming_seen sheet.now).names.maps map ∷ []))) }
{
    out.open_part("points")?;
    push_card(out, sheet, bound, card)?;
    push_map(out, sheet, map)?;
    out.close()
}

/// Opens a list that begins with an atom and a number.
#[cycle(expressions)]
fn open_with_int(
    out: &mut Printer,
    sheet: &Sheet,
    bound: &[Variable],
    head: &str,
    int: &IntExpr,
) -> Result<(), AllocError>
    ensures { OnOk result (out.new.bytes.items ≡ out.old.bytes.items ++ 32 ∷ 40 ∷ head.now
        ++ 32 ∷ printed (int_form (naming_seen sheet.now) (bound_seen sheet.now bound.now) (int_seen int.now))) }
{
    out.open_part(head)?;
    push_int(out, sheet, bound, int)
}

/// Closes a list behind a number.
#[cycle(expressions)]
fn close_with_int(
    out: &mut Printer,
    sheet: &Sheet,
    bound: &[Variable],
    int: &IntExpr,
) -> Result<(), AllocError>
    ensures { OnOk result (out.new.bytes.items ≡ out.old.bytes.items
        ++ 32 ∷ printed (int_form (naming_seen sheet.now) (bound_seen sheet.now bound.now) (int_seen int.now))
        ++ 41 ∷ []) }
{
    push_int(out, sheet, bound, int)?;
    out.close()
}

#[cycle(expressions)]
pub fn push_test(
    out: &mut Printer,
    sheet: &Sheet,
    bound: &[Variable],
    test: &Test,
) -> Result<(), AllocError>
    ensures { OnOk result (out.new.bytes.items ≡ out.old.bytes.items
        ++ 32 ∷ printed (test_form (naming_seen sheet.now) (bound_seen sheet.now bound.now) (test_seen test.now))) }
{
    match test {
        Test::EqInt(..) | Test::EqCard(..) | Test::EqAttr(..) | Test::EqWho(..) => {
            push_sides(out, sheet, bound, "=", test)
        }
        Test::Ne(inner) => push_sides(out, sheet, bound, "!=", inner),
        Test::Less(a, b) => {
            open_with_int(out, sheet, bound, "<", a)?;
            close_with_int(out, sheet, bound, b)
        }
        Test::LessEq(a, b) => {
            open_with_int(out, sheet, bound, "<=", a)?;
            close_with_int(out, sheet, bound, b)
        }
        Test::More(a, b) => {
            open_with_int(out, sheet, bound, ">", a)?;
            close_with_int(out, sheet, bound, b)
        }
        Test::MoreEq(a, b) => {
            open_with_int(out, sheet, bound, ">=", a)?;
            close_with_int(out, sheet, bound, b)
        }
        Test::Is(card, attr, value) => push_is(out, sheet, bound, card, *attr, *value),
        Test::And(tests) => push_tests(out, sheet, bound, "and", tests),
        Test::Or(tests) => push_tests(out, sheet, bound, "or", tests),
        Test::Not(inner) => push_not(out, sheet, bound, inner),
        Test::All(domain, var, inner) => {
            open_over(out, sheet, bound, "all", domain, *var)?;
            close_within(out, sheet, bound, *var, inner)
        }
        Test::Any(domain, var, inner) => {
            open_over(out, sheet, bound, "any", domain, *var)?;
            close_within(out, sheet, bound, *var, inner)
        }
    }
}

/// Adds the test of a card's attribute.
#[cycle(expressions)]
fn push_is(
    out: &mut Printer,
    sheet: &Sheet,
    bound: &[Variable],
    card: &CardExpr,
    attr: u16,
    value: u16,
) -> Result<(), AllocError>
    ensures { OnOk result (out.new.bytes.items ≡ out.old.bytes.items
        ++ 32 ∷ printed (row (keyword "is"
        ∷ card_form (naming_seen sheet.now) (bound_seen sheet.now bound.now) (card_seen card.now)
        ∷ named (naming_seen sheet.now).names.attrs attr ∷ named (naming_seen sheet.now).names.values value ∷ []))) }
{
    out.open_part("is")?;
    push_card(out, sheet, bound, card)?;
    push_attr(out, sheet, attr)?;
    push_value(out, sheet, value)?;
    out.close()
}

/// Adds a test turned round.
#[cycle(expressions)]
fn push_not(
    out: &mut Printer,
    sheet: &Sheet,
    bound: &[Variable],
    test: &Test,
) -> Result<(), AllocError>
    ensures { OnOk result (out.new.bytes.items ≡ out.old.bytes.items
        ++ 32 ∷ printed (row (keyword "not"
        ∷ test_form (naming_seen sheet.now) (bound_seen sheet.now bound.now) (test_seen test.now) ∷ []))) }
{
    out.open_part("not")?;
    push_test(out, sheet, bound, test)?;
    out.close()
}

/// Adds what a test for equality compares, behind a head.
#[cycle(expressions)]
fn push_sides(
    out: &mut Printer,
    sheet: &Sheet,
    bound: &[Variable],
    head: &str,
    test: &Test,
) -> Result<(), AllocError>
    ensures { OnOk result (out.new.bytes.items ≡ out.old.bytes.items
        ++ 32 ∷ printed (row (atom head.now
        ∷ sides (naming_seen sheet.now) (bound_seen sheet.now bound.now) (test_seen test.now)))) }
{
    match test {
        Test::EqInt(a, b) => {
            open_with_int(out, sheet, bound, head, a)?;
            close_with_int(out, sheet, bound, b)
        }
        Test::EqCard(a, b) => {
            out.open_part(head)?;
            push_card(out, sheet, bound, a)?;
            push_card(out, sheet, bound, b)?;
            out.close()
        }
        Test::EqAttr(a, attr, b, other) => {
            out.open_part(head)?;
            push_attr_of(out, sheet, bound, a, *attr)?;
            push_attr_of(out, sheet, bound, b, *other)?;
            out.close()
        }
        Test::EqWho(a, b) => push_owners(out, sheet, bound, head, *a, *b),
        _ => push_bare(out, head),
    }
}

/// Adds an attribute of a card.
#[cycle(expressions)]
fn push_attr_of(
    out: &mut Printer,
    sheet: &Sheet,
    bound: &[Variable],
    card: &CardExpr,
    attr: u16,
) -> Result<(), AllocError>
    ensures { OnOk result (out.new.bytes.items ≡ out.old.bytes.items
        ++ 32 ∷ printed (attr_form (naming_seen sheet.now)
        (card_form (naming_seen sheet.now) (bound_seen sheet.now bound.now) (card_seen card.now)) attr)) }
{
    out.open_part("attr")?;
    push_card(out, sheet, bound, card)?;
    push_attr(out, sheet, attr)?;
    out.close()
}

/// Adds a list of tests behind its head.
#[cycle(expressions)]
fn push_tests(
    out: &mut Printer,
    sheet: &Sheet,
    bound: &[Variable],
    head: &str,
    tests: &Vec<Test>,
) -> Result<(), AllocError>
    ensures { OnOk result (out.new.bytes.items ≡ out.old.bytes.items
        ++ 32 ∷ printed (row (atom head.now
        ∷ test_forms (naming_seen sheet.now) (bound_seen sheet.now bound.now) (tests_seen tests.now.items)))) }
{
    out.open_part(head)?;
    for test in tests {
        push_test(out, sheet, bound, test)?;
    }
    out.close()
}

/// Opens a list that begins with an atom, and with a variable behind what it runs over.
#[cycle(expressions)]
fn open_over(
    out: &mut Printer,
    sheet: &Sheet,
    bound: &[Variable],
    head: &str,
    domain: &Domain,
    var: u32,
) -> Result<(), AllocError>
    ensures { OnOk result (out.new.bytes.items ≡ out.old.bytes.items ++ 32 ∷ 40 ∷ head.now
        ++ 32 ∷ printed (domain_form (naming_seen sheet.now) (bound_seen sheet.now bound.now) (domain_seen domain.now))
        ++ 32 ∷ printed (named (naming_seen sheet.now).names.vars var)) }
{
    out.open_part(head)?;
    push_domain(out, sheet, bound, domain)?;
    push_binder(out, sheet, var)
}

/// Closes a list behind a test that sees one more variable.
#[cycle(expressions)]
fn close_within(
    out: &mut Printer,
    sheet: &Sheet,
    bound: &[Variable],
    var: u32,
    test: &Test,
) -> Result<(), AllocError>
    ensures { OnOk result (out.new.bytes.items ≡ out.old.bytes.items
        ++ 32 ∷ printed (test_form (naming_seen sheet.now)
        (binding (naming_seen sheet.now) (bound_seen sheet.now bound.now) var)
        (test_seen test.now)) ++ 41 ∷ []) }
{
    let within = behind(out, sheet, bound, var)?;
    push_test(out, sheet, &within, test)?;
    out.close()
}

#[cycle(expressions)]
pub fn push_domain(
    out: &mut Printer,
    sheet: &Sheet,
    bound: &[Variable],
    domain: &Domain,
) -> Result<(), AllocError>
    ensures { OnOk result (out.new.bytes.items ≡ out.old.bytes.items
        ++ 32 ∷ printed (domain_form (naming_seen sheet.now) (bound_seen sheet.now bound.now)
        (domain_seen domain.now))) }
{
    match domain {
        Domain::Players => out.keyword(" player"),
        Domain::Coll(cards) => push_coll(out, sheet, bound, cards),
        Domain::Parts(cards, attr) => push_parts(out, sheet, bound, cards, *attr),
    }
}

/// Adds cards as they are parted by an attribute.
#[cycle(expressions)]
fn push_parts(
    out: &mut Printer,
    sheet: &Sheet,
    bound: &[Variable],
    cards: &CollExpr,
    attr: u16,
) -> Result<(), AllocError>
    ensures { OnOk result (out.new.bytes.items ≡ out.old.bytes.items
        ++ 32 ∷ printed (row (keyword "partition"
        ∷ coll_form (naming_seen sheet.now) (bound_seen sheet.now bound.now) (coll_seen cards.now)
        ∷ named (naming_seen sheet.now).names.attrs attr ∷ []))) }
{
    out.open_part("partition")?;
    push_coll(out, sheet, bound, cards)?;
    push_attr(out, sheet, attr)?;
    out.close()
}
