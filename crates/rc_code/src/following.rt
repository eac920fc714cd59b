//! Which guards are as those of games in which a suit is followed.
ghost use Rattle.std.specs.Prelude.{◌≡◌, true, IfSome};
ghost use Rattle.rc_ast.specs.Names.{loc_seen, who_seen};
ghost use Rattle.rc_code.specs.Following.{AreSamePlaces, AskTheSame, Follows, SaysNone};
ghost use Rattle.rc_code.specs.declared.guards.Sense.TheVariants.{Plain};
ghost use Rattle.rc_code.specs.declared.guards.GuardTest.TheVariants.{OfCard};

use crate::guards::{CardTest, GuardPart, GuardTest, Joint, Sense};
use rc_ast::{Loc, Who};

// Whether two owners are the same, and none that a variable stands for.
fn are_same_owners(one: Who, other: Who) -> bool
    ensures { result ≡ true → who_seen one ≡ who_seen other }
{
    match (one, other) {
        (Who::Game, Who::Game) => true,
        (Who::CurrentPlayer, Who::CurrentPlayer) => true,
        (Who::CurrentTeam, Who::CurrentTeam) => true,
        (Who::TeamOfCurrent, Who::TeamOfCurrent) => true,
        _ => false,
    }
}

// Whether two locations are the same, wherever their forms stand.
fn are_same_places(one: &Loc, other: &Loc) -> bool
    ensures { result ≡ true → AreSamePlaces (loc_seen one.now) (loc_seen other.now) }
{
    one.name == other.name && are_same_owners(one.who, other.who)
}

// Whether two tests ask the same of a card.
fn ask_the_same(one: &CardTest, other: &CardTest) -> bool
    ensures { result ≡ true → AskTheSame one.now other.now }
{
    match one {
        CardTest::Value { name, value } => match other {
            CardTest::Value {
                name: named,
                value: valued,
            } => *name == *named && *value == *valued,
            _ => false,
        },
        CardTest::Against {
            name,
            against,
            other: of_top,
        } => match other {
            CardTest::Against {
                name: named,
                against: top,
                other: of_other,
            } => *name == *named && are_same_places(against, top) && *of_top == *of_other,
            _ => false,
        },
    }
}

// Whether a part says that none of the cards of a location passes a test.
fn says_none(loc: &Loc, card_test: &CardTest, part: &GuardPart) -> bool
    ensures { result ≡ true → SaysNone (loc_seen loc.now) card_test.now part.now.sense part.now.guard_test }
{
    match part.sense {
        Sense::Not => match &part.guard_test {
            GuardTest::Among {
                any: true,
                among,
                bound: _,
                sense: Sense::Plain,
                card_test: asked,
            } => are_same_places(loc, among) && ask_the_same(card_test, asked),
            _ => false,
        },
        _ => false,
    }
}

// The test, where a part asks a card for it as it is.
fn plain_test(part: &GuardPart) -> Option<&CardTest>
    ensures { IfSome result (λ card_test. part.now ≡ record { sense = Plain; guard_test = OfCard card_test.now }) }
{
    match part.sense {
        Sense::Plain => match &part.guard_test {
            GuardTest::OfCard(card_test) => Some(card_test),
            _ => None,
        },
        _ => None,
    }
}

// Whether one part is enough, and the last two parts say that a card passes a test, or that none of the location's
// cards does.
pub(crate) fn follows(loc: &Loc, joint: Joint, parts: &[GuardPart]) -> bool
    ensures { result ≡ true → Follows (loc_seen loc.now) joint parts.now }
{
    let Joint::Any = joint else {
        return false;
    };
    let Some((last, rest)) = parts.split_last() else {
        return false;
    };
    let Some((one, _)) = rest.split_last() else {
        return false;
    };
    match plain_test(one) {
        Some(card_test) => says_none(loc, card_test, last),
        None => false,
    }
}
