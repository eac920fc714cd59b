//! Numbers that are read off the table with no list.
ghost use Rattle.std.specs.Prelude.{◌≡◌, is_some, IfSome};
ghost use Rattle.rc_sheet_spec.specs.Sheet.{cards_in, size_of, top_card, worth_of};
ghost use Rattle.rc_ast.specs.Names.{loc_seen};
ghost use Rattle.rc_ast.specs.Expressions.{card_seen, coll_seen, int_seen};
ghost use Rattle.rc_code.specs.FlatMeaning.{amount_meant};
ghost use Rattle.rc_code.specs.Flatness.{is_location, is_top, is_at_hand};

use rc_ast::{CardExpr, CollExpr, IntExpr, Loc, Num};

/// A number that is read off the table with no list: one that is written out, one that the game keeps, how many cards a
/// location has, or what its top card is worth by a point map.
#[derive(Clone, Copy)]
pub enum Amount {
    Literal(i64),
    Number(Num),
    Size(Loc),
    Worth(Loc, u16),
}

// The location, where a collection is one.
fn location_in(cards: &CollExpr) -> Option<Loc>
    ensures same { IfSome result (λ loc. cards_in (loc_seen loc) ≡ coll_seen cards.now) }
    ensures found { is_some result ≡ is_location (coll_seen cards.now) }
{
    match cards {
        CollExpr::Loc(loc) => Some(*loc),
        _ => None,
    }
}

/// The location, where a card is the top one of a location.
pub(crate) fn topped_by(card: &CardExpr) -> Option<Loc>
    ensures same { IfSome result (λ loc. top_card (cards_in (loc_seen loc)) ≡ card_seen card.now) }
    ensures found { is_some result ≡ is_top (card_seen card.now) }
{
    match card {
        CardExpr::Top(cards) => location_in(cards),
        _ => None,
    }
}

fn size_in(cards: &CollExpr) -> Option<Amount>
    ensures same { IfSome result (λ amount. amount_meant amount ≡ size_of (coll_seen cards.now)) }
    ensures found { is_some result ≡ is_location (coll_seen cards.now) }
{
    match location_in(cards) {
        Some(loc) => Some(Amount::Size(loc)),
        None => None,
    }
}

fn worth_in(card: &CardExpr, map: u16) -> Option<Amount>
    ensures same { IfSome result (λ amount. amount_meant amount ≡ worth_of (card_seen card.now) map) }
    ensures found { is_some result ≡ is_top (card_seen card.now) }
{
    match topped_by(card) {
        Some(loc) => Some(Amount::Worth(loc, map)),
        None => None,
    }
}

/// A number in flat form, if it has one.
pub(crate) fn amount_of(expr: &IntExpr) -> Option<Amount>
    ensures same { IfSome result (λ amount. amount_meant amount ≡ int_seen expr.now) }
    ensures found { is_some result ≡ is_at_hand (int_seen expr.now) }
{
    match expr {
        IntExpr::Lit(value) => Some(Amount::Literal(*value)),
        IntExpr::Num(num) => Some(Amount::Number(*num)),
        IntExpr::Size(cards) => size_in(cards),
        IntExpr::Points(card, map) => worth_in(card, *map),
        _ => None,
    }
}
