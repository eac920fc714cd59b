//! The stages and choices of a game.
ghost use Rattle.std.specs.Prelude.{◌≡◌};
ghost use Rattle.rc_sheet_spec.specs.Sheet.{stage};
ghost use Rattle.rc_ast.specs.Expressions.{test_seen};
ghost use Rattle.rc_ast.specs.Items.{item_seen, items_seen};

use crate::{Class, Domain, Effect, Test};

/// An alternative of a choice.
pub enum Alt {
    Do(Vec<Effect>),
    If(Box<Test>, Vec<Effect>),
    Any(Domain, u32, Box<Alt>),
}

/// A part of a game. Stages and choice sites are numbered in the order of the text.
pub enum SheetItem {
    Do(Vec<Effect>),
    Stage {
        number: u16,
        class: Class,
        end: Test,
        body: Vec<SheetItem>,
    },
    Choice {
        site: u8,
        alts: Vec<Alt>,
    },
}

// A derived drop is proved again in each crate that may drop a sheet, and these once.

impl Drop for Alt {
    fn drop(self) {
        match self {
            Alt::Do(_effects) => {}
            Alt::If(_test, _effects) => {}
            Alt::Any(_domain, _, _alt) => {}
        }
    }
}

impl Drop for SheetItem {
    fn drop(self) {
        match self {
            SheetItem::Do(_effects) => {}
            SheetItem::Stage {
                number: _,
                class: _,
                end: _end,
                body: _body,
            } => {}
            SheetItem::Choice {
                site: _,
                alts: _alts,
            } => {}
        }
    }
}

impl SheetItem {
    /// The items, round after round, until the test holds before a round.
    pub fn stage_of(number: u16, class: Class, end: Test, body: Vec<SheetItem>) -> SheetItem
        ensures { item_seen result ≡ stage number class (test_seen end) (items_seen body.items) }
    {
        SheetItem::Stage {
            number,
            class,
            end,
            body,
        }
    }
}
