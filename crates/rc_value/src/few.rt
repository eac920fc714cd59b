//! A few cards in a small list, which costs less to make than one for all.
ghost use Rattle.std.specs.Prelude.{◌≡◌, [], true, All};
ghost use Rattle.rc_play_spec.specs.Value.{coll_value};
ghost use Rattle.rc_play_spec.specs.Bound.{IsCardOf};
ghost use Rattle.rc_ast.specs.Expressions.{coll_seen};
ghost use Rattle.rc_value.specs.Cards.{value_seen, values_seen};
ghost use Rattle.rc_value.specs.Context.{scene_in, IsContextOf, in_scope};
ghost use Rattle.rc_value.specs.Under.{IsCollUnder};

use crate::context::{Context, scene_now};
use crate::{Card, Collection, bare};
use arrayvec::ArrayVec;
use rc_ast::CollExpr;
use rc_rules::Frames;
use rc_table::Table;

/// At most 32 cards.
pub type FewCards = ArrayVec<Card, 32>;

/// Writes the cards of a location or of a variable into an empty list, where they are at most 32, and says whether it
/// did. It doesn't for another expression.
pub fn few_cards_now(
    context: &Context,
    expr: &CollExpr,
    table: &Table,
    frames: &Frames,
    out: &mut FewCards,
) -> bool
    requires stands { IsContextOf context.now table.now frames.now.items }
    requires well { in_scope context.now IsCollUnder (coll_seen expr.now) }
    requires empty { out.old.items ≡ [] }
    ensures cards { result ≡ true → values_seen out.new.items
        ≡ coll_value (scene_in context.now table.now frames.now.items) context.now.scope.now (coll_seen expr.now) }
    ensures there { result ≡ true → All (λ card. IsCardOf context.now.about.now.shape (value_seen card)) out.new.items }
{
    // what an about and a table keep
    let _fits = context.about.sheet();
    let _sound = table.shape();
    write_bare(context, expr, table, frames, out)
}

#[inline(always)]
fn write_bare(
    context: &Context,
    expr: &CollExpr,
    table: &Table,
    frames: &Frames,
    out: &mut FewCards,
) -> bool
    requires stands { IsContextOf context.now table.now frames.now.items }
    requires empty { out.old.items ≡ [] }
    ensures { result ≡ true → values_seen out.new.items
        ≡ coll_value (scene_in context.now table.now frames.now.items) context.now.scope.now (coll_seen expr.now) }
{
    let scene = scene_now(context, table, frames);
    match bare(&scene, context.scope, expr) {
        Some(cards) => write_few(&cards, out),
        None => false,
    }
}

// Writes these cards into an empty list, where they are few, and says whether they are.
fn write_few(cards: &Collection, out: &mut FewCards) -> bool
    requires empty { out.old.items ≡ [] }
    ensures { result ≡ true → values_seen out.new.items ≡ cards.now }
{
    let count = cards.len();
    if count > 32 {
        return false;
    }
    for place in 0..count {
        out.push(cards.at(place));
    }
    true
}
