//! Choosing that is watched.
ghost use Rattle.std.specs.Prelude.{◌≡◌, IfOk};
ghost use Rattle.rc_code.specs.Seen.{code_seen};
ghost use Rattle.rc_code.specs.Stands.{StandsFor};
ghost use Rattle.rc_redraw.specs.Need.{need_seen, IsNeed};
ghost use Rattle.rc_rollout.specs.Blank.{counts_of};

use rc_base::Steps;
use rc_code::Code;
use rc_deck::Memory;
use rc_redraw::{Chooser, Need};
use rc_rollout::{Blank, Choices};
use rc_rules::About;
use std::alloc::Global;
use std::sync::Arc;
use std::sync::ledger::Ledger;

/// Watches what choosers are asked.
pub trait Observer: Drop {
    /// Sees a decision before it is made. The code stands for the sheet.
    fn see(&mut self, alloc: Global, need: &Need, code: &Arc<Code>)
        requires need { IsNeed (need_seen need.now) }
        requires code { StandsFor (need_seen need.now).about.sheet (code_seen code.now.value) };
}

/// Chooses as strategies do, without a memory of totals, and has an observer see each decision first.
#[derive(Drop)]
pub struct Observed<O: Observer> {
    choices: Choices<Blank>,
    code: Arc<Code>,
    observer: O,
}

impl<O: Observer> Observed<O> {
    /// Choices in matches of this about on this code, with this observer.
    pub fn new(about: &Arc<About>, code: &Arc<Code>, observer: O) -> Result<Observed<O>, Memory>
        ensures about { IfOk result (λ o. o.choices.ground ≡ about.now.value) }
        ensures choices { IfOk result (λ o. o.choices.code.value ≡ code.now.value) }
        ensures code { IfOk result (λ o. o.code.value ≡ code.now.value) }
    {
        let own = Arc::try_clone(code)?;
        let choices = Choices::new(Arc::try_clone(about)?, Arc::try_clone(code)?, Blank::new());
        Ok(Observed {
            choices,
            code: own,
            observer,
        })
    }

    /// The memo and the observer back.
    pub fn into_parts(self) -> (Blank, O) {
        let Observed {
            choices,
            code: _code,
            observer,
        } = self;
        (choices.into_memo(), observer)
    }
}

impl<O: Observer> Chooser for Observed<O> {
    ghost serves = { λ o about. (about ≡ o.choices.ground) × StandsFor about.sheet (code_seen o.choices.code.value)
        × StandsFor about.sheet (code_seen o.code.value) };

    ghost counts = { λ o. counts_of o.choices.memo };

    ghost name = { λ o. 0 };

    fn choose<L: Ledger>(
        &mut self,
        alloc: Global,
        need: Need,
        steps: &mut Steps<L>,
    ) -> Result<u16, Memory> {
        self.observer.see(alloc, &need, &self.code);
        self.choices.choose(alloc, need, steps)
    }
}
