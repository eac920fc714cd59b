//! What chooses for the seats.
ghost use Rattle.std.specs.Prelude.{◌≡◌, ℕ, ◌≤◌, ◌+◌, IfOk, OnOk, OnErr};
ghost use Rattle.rc_play_spec.specs.About.{About as PureAbout};
ghost use Rattle.rc_play_spec.specs.Keyed.{choice_of};
ghost use Rattle.rc_redraw.specs.Counts.{Counts};
ghost use Rattle.rc_redraw.specs.Need.{need_seen, IsNeed};
ghost use Rattle.rc_redraw.specs.Choosing.{Chooses, ChoiceLacks, most_steps};

use crate::need::Need;
use rc_base::Steps;
use rc_deck::Memory;
use std::alloc::Global;
use std::sync::ledger::Ledger;

/// Chooses as strategies do. For a rollout it asks a memo once, and what that misses is played out, a step for each
/// playout. Other strategies ask nothing. Where memory runs out, nothing was kept. It has a name, which no call
/// changes, so that it is known again among others.
pub trait Chooser {
    ghost serves: { Self → PureAbout → Type 0 };

    ghost counts: { Self → Counts };

    ghost name: { Self → ℕ };

    /// The item that the strategy chooses.
    fn choose<L: Ledger>(
        &mut self,
        alloc: Global,
        need: Need,
        steps: &mut Steps<L>,
    ) -> Result<u16, Memory>
        requires served { serves self.old (need_seen need).about }
        requires need { IsNeed (need_seen need) }
        ensures choice { IfOk result (λ item. item
            ≡ choice_of (need_seen need).about (need_seen need).strategy (need_seen need).seed
            (need_seen need).view) }
        ensures counted { OnOk result
            (Chooses (need_seen need) (counts self.old) (counts self.new) steps.old steps.new) }
        ensures lacking { OnErr result
            (ChoiceLacks (need_seen need) (counts self.old) (counts self.new) steps.old steps.new) }
        ensures rises { steps.old ≤ steps.new }
        ensures bounded { steps.new ≤ steps.old + most_steps (need_seen need) }
        ensures same { (about : PureAbout) → serves self.old about → serves self.new about }
        ensures named { name self.new ≡ name self.old };
}
