//! What is made of readings: of one, or of two.
//!
//! Each takes what was read, or why nothing was, and hands on why nothing is made. So the readers that call one another
//! have no exit at which they drop what they read.
ghost use Rattle.std.specs.Prelude.{Option, ℕ, option_map};
ghost use Rattle.rc_sheet_spec.specs.Sheet.{filtered, has_value, move, move_all, remember, forget, shuffle, peek, set_to, increase, decrease};
ghost use Rattle.rc_sheet_spec.specs.Sheet.{CardExpr as PureCard, CollExpr as PureColl, IntExpr as PureInt, Test as PureTest, End as PureEnd, Who as PureWho, Loc as PureLoc, Num as PureNum};
ghost use Rattle.rc_ast.specs.Names.{who_seen, loc_seen, num_seen};
ghost use Rattle.rc_ast.specs.Expressions.{card_seen, coll_seen, int_seen, test_seen};
ghost use Rattle.rc_ast.specs.Effects.{end_seen, effect_seen};
ghost use Rattle.rc_sheet.specs.Gives.{Gives, IsBoxed, AreBoth};

use crate::fail::Unread;
use rc_ast::{CardExpr, CollExpr, Effect, End, IntExpr, Loc, Num, Test, Who};
use std::alloc::Global;

/// What was read, in a box.
pub fn box_read<T: Drop>(alloc: Global, read: Result<T, Unread>) -> Result<Box<T>, Unread>
    ensures { IsBoxed read result }
{
    match read {
        Ok(value) => Ok(Box::new(alloc, value)?),
        Err(why) => Err(why),
    }
}

/// Two readings, where both are there.
pub fn both_read<A: Drop, B: Drop>(
    first: Result<A, Unread>,
    second: Result<B, Unread>,
) -> Result<(A, B), Unread>
    ensures { AreBoth first second result }
{
    match first {
        Ok(first) => match second {
            Ok(second) => Ok((first, second)),
            Err(why) => Err(why),
        },
        Err(why) => Err(why),
    }
}

/// Those of the cards that pass a test with a variable of this number, where they were read.
pub fn filter_read(
    read: Result<(Box<CollExpr>, (u32, Box<Test>)), Unread>,
) -> Result<CollExpr, Unread>
    ensures { (said : Option (PureColl × (ℕ × PureTest)))
        → Gives (λ p. (coll_seen p.0.value, (p.1.0, test_seen p.1.1.value))) read said
        → Gives coll_seen result (option_map (λ p. filtered p.0 p.1.0 p.1.1) said) }
{
    match read {
        Ok((cards, (bound, test))) => Ok(CollExpr::Filter(cards, bound, test)),
        Err(why) => Err(why),
    }
}

/// Whether the card has a value of an attribute, where they were read.
pub fn value_read(read: Result<(Box<CardExpr>, (u16, u16)), Unread>) -> Result<Test, Unread>
    ensures { (said : Option (PureCard × (ℕ × ℕ)))
        → Gives (λ p. (card_seen p.0.value, (p.1.0, p.1.1))) read said
        → Gives test_seen result (option_map (λ p. has_value p.0 p.1.0 p.1.1) said) }
{
    match read {
        Ok((card, (attr, value))) => Ok(Test::Is(card, attr, value)),
        Err(why) => Err(why),
    }
}

/// The move of the card to the end, where they were read.
pub fn move_read(read: Result<(CardExpr, (End, Loc)), Unread>) -> Result<Effect, Unread>
    ensures { (said : Option (PureCard × (PureEnd × PureLoc)))
        → Gives (λ two. (card_seen two.0, (end_seen two.1.0, loc_seen two.1.1))) read said
        → Gives effect_seen result (option_map (λ p. move p.0 p.1.0 p.1.1) said) }
{
    match read {
        Ok((card, (end, loc))) => Ok(Effect::Move(card, end, loc)),
        Err(why) => Err(why),
    }
}

/// The move of all of the cards to the end, where they were read.
pub fn move_all_read(read: Result<(CollExpr, (End, Loc)), Unread>) -> Result<Effect, Unread>
    ensures { (said : Option (PureColl × (PureEnd × PureLoc)))
        → Gives (λ two. (coll_seen two.0, (end_seen two.1.0, loc_seen two.1.1))) read said
        → Gives effect_seen result (option_map (λ p. move_all p.0 p.1.0 p.1.1) said) }
{
    match read {
        Ok((cards, (end, loc))) => Ok(Effect::MoveAll(cards, end, loc)),
        Err(why) => Err(why),
    }
}

/// That the card is remembered at the end, where they were read.
pub fn remember_read(read: Result<(CardExpr, (End, Loc)), Unread>) -> Result<Effect, Unread>
    ensures { (said : Option (PureCard × (PureEnd × PureLoc)))
        → Gives (λ two. (card_seen two.0, (end_seen two.1.0, loc_seen two.1.1))) read said
        → Gives effect_seen result (option_map (λ p. remember p.0 p.1.0 p.1.1) said) }
{
    match read {
        Ok((card, (end, loc))) => Ok(Effect::Remember(card, end, loc)),
        Err(why) => Err(why),
    }
}

/// That the card is forgotten, where it was read.
pub fn forget_read(read: Result<CardExpr, Unread>) -> Result<Effect, Unread>
    ensures { (said : Option PureCard) → Gives card_seen read said
        → Gives effect_seen result (option_map forget said) }
{
    match read {
        Ok(card) => Ok(Effect::Forget(card)),
        Err(why) => Err(why),
    }
}

/// That the location is shuffled, where it was read.
pub fn shuffle_read(read: Result<Loc, Unread>) -> Result<Effect, Unread>
    ensures { (said : Option PureLoc) → Gives loc_seen read said
        → Gives effect_seen result (option_map shuffle said) }
{
    match read {
        Ok(loc) => Ok(Effect::Shuffle(loc)),
        Err(why) => Err(why),
    }
}

/// That the cards are shown to the owner, where they were read.
pub fn peek_read(read: Result<(CollExpr, Who), Unread>) -> Result<Effect, Unread>
    ensures { (said : Option (PureColl × PureWho)) → Gives (λ two. (coll_seen two.0, who_seen two.1)) read said
        → Gives effect_seen result (option_map (λ p. peek p.0 p.1) said) }
{
    match read {
        Ok((cards, owner)) => Ok(Effect::Peek(cards, owner)),
        Err(why) => Err(why),
    }
}

/// That the stored number is set, where the two were read.
pub fn set_read(read: Result<(Num, IntExpr), Unread>) -> Result<Effect, Unread>
    ensures { (said : Option (PureNum × PureInt)) → Gives (λ two. (num_seen two.0, int_seen two.1)) read said
        → Gives effect_seen result (option_map (λ p. set_to p.0 p.1) said) }
{
    match read {
        Ok((num, value)) => Ok(Effect::Set(num, value)),
        Err(why) => Err(why),
    }
}

/// That the stored number is increased, where the two were read.
pub fn increase_read(read: Result<(Num, IntExpr), Unread>) -> Result<Effect, Unread>
    ensures { (said : Option (PureNum × PureInt)) → Gives (λ two. (num_seen two.0, int_seen two.1)) read said
        → Gives effect_seen result (option_map (λ p. increase p.0 p.1) said) }
{
    match read {
        Ok((num, value)) => Ok(Effect::Inc(num, value)),
        Err(why) => Err(why),
    }
}

/// That the stored number is decreased, where the two were read.
pub fn decrease_read(read: Result<(Num, IntExpr), Unread>) -> Result<Effect, Unread>
    ensures { (said : Option (PureNum × PureInt)) → Gives (λ two. (num_seen two.0, int_seen two.1)) read said
        → Gives effect_seen result (option_map (λ p. decrease p.0 p.1) said) }
{
    match read {
        Ok((num, value)) => Ok(Effect::Dec(num, value)),
        Err(why) => Err(why),
    }
}
