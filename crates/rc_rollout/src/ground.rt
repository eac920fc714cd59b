//! What is kept from one decision to the next.
ghost use Rattle.std.specs.Prelude.{◌≡◌, ◌≤◌, ◌+◌, ◌*◌, IfOk, IfSome, OnOk, OnErr};
ghost use Rattle.rc_play_spec.specs.Strategy.{menu_size};
ghost use Rattle.rc_play_spec.specs.Tally.{tally as tally_of};
ghost use Rattle.rc_code.specs.Seen.{code_seen};
ghost use Rattle.rc_code.specs.Stands.{StandsFor};
ghost use Rattle.rc_redraw.specs.Asking.{ask_seen};
ghost use Rattle.rc_redraw.specs.Need.{IsAtDecision};
ghost use Rattle.rc_rollout.specs.Back.{IsAtRound};
ghost use Rattle.rc_rollout.specs.Rounds.{redrawn_for, IsDealing};

use crate::totals::{deal_round, go_to_ask, totals_by};
use rc_base::Steps;
use rc_code::Code;
use rc_deck::Memory;
use rc_flat::HomeMachine;
use rc_play_spec::menu_sizes_are_functions_of_views;
use rc_redraw::{Ask, Desk, Redraws};
use rc_rules::About;
use rc_table::Table;
use std::alloc::Global;
use std::marker::Model;
use std::sync::Arc;
use std::sync::ledger::Ledger;

/// What playouts from the decisions of one about stand on. It takes memory at the first of them, and what it took is
/// kept for the next. Contracts see the about alone.
pub struct Ground {
    about: Arc<About>,
    // as the last decision left them
    desk: Option<Desk>,
    machine: Option<HomeMachine>,
}

// A derived drop is proved again in each crate that may drop a ground, and this one once.
impl Drop for Ground {
    fn drop(self) {
        let Ground {
            about: _about,
            desk: _desk,
            machine: _machine,
        } = self;
    }
}

impl Model for Ground {
    ghost use Rattle.std.specs.Coded.{codes};
    ghost use Rattle.rc_flow.specs.Codes.{sheet_codes};
    ghost use Rattle.rc_play_spec.specs.About.{About as PureAbout};

    ghost Value = { PureAbout };

    ghost coded = { Prim.hlevel (sheet_codes, codes) };

    ghost use Rattle.rc_rollout.specs.Ground.{IsGround};

    ghost view = { λ g. g.about.value };

    ghost invariant = { IsGround };
}

impl Ground {
    /// Nothing yet, for decisions of this about.
    pub fn new(about: Arc<About>) -> Ground
        ensures { result ≡ about.value }
    {
        Ground {
            about,
            desk: None,
            machine: None,
        }
    }

    /// The totals of an ask: what each item of the menu gains over all rounds. It counts a step for each playout.
    /// Memory may run out, but only before the first playout, and then no step is counted.
    pub(crate) fn totals<L: Ledger>(
        &mut self,
        alloc: Global,
        ask: &Ask,
        code: &Arc<Code>,
        steps: &mut Steps<L>,
    ) -> Result<Vec<u32>, Memory>
        requires at { IsAtDecision self.old (ask_seen ask.now).view }
        requires code { StandsFor self.old.sheet (code_seen code.now.value) }
        ensures are { IfOk result (λ totals. totals.items ≡ tally_of self.old (ask_seen ask.now)) }
        ensures lacking { OnErr result (steps.new ≡ steps.old) }
        ensures counted { OnOk result (steps.new
            ≡ steps.old + (ask_seen ask.now).rounds * menu_size self.old (ask_seen ask.now).view) }
        ensures rises { steps.old ≤ steps.new }
        ensures bounded { steps.new
            ≤ steps.old + (ask_seen ask.now).rounds * menu_size self.old (ask_seen ask.now).view }
        ensures same { self.new ≡ self.old }
    {
        let mut redraws = first_round(alloc, &self.about, ask, self.desk.take())?;
        let totals = totals_on(
            alloc,
            &self.about,
            ask,
            code,
            &mut redraws,
            &mut self.machine,
            steps,
        )?;
        self.desk = Some(redraws.into_desk());
        Ok(totals)
    }
}

// Redraws for an ask, with the table of its first round. They are laid on a desk where there is one.
fn first_round<'v>(
    alloc: Global,
    about: &About,
    ask: &'v Ask,
    desk: Option<Desk>,
) -> Result<Redraws<'v>, Memory>
    requires at { IsAtDecision about.now (ask_seen ask.now).view }
    requires laid { IfSome desk (λ desk. desk.table.shape ≡ about.now.shape) }
    ensures deals { IfOk result (IsDealing about.now (ask_seen ask.now)) }
    ensures table { IfOk result (λ r. record { shape = r.shape; table = r.table }
        ≡ redrawn_for about.now (ask_seen ask.now) 0) }
{
    let mut redraws = match desk {
        Some(desk) => Redraws::laid_on(alloc, about.shape(), &ask.view, desk)?,
        None => Redraws::new(alloc, about.shape(), &ask.view)?,
    };
    deal_round(ask, 0, &mut redraws);
    Ok(redraws)
}

// The totals of an ask, on a machine that is left of an earlier one, or on a new one, which is left for a later one.
fn totals_on<L: Ledger>(
    alloc: Global,
    about: &About,
    ask: &Ask,
    code: &Arc<Code>,
    redraws: &mut Redraws,
    left: &mut Option<HomeMachine>,
    steps: &mut Steps<L>,
) -> Result<Vec<u32>, Memory>
    requires at { IsAtDecision about.now (ask_seen ask.now).view }
    requires code { StandsFor about.now.sheet (code_seen code.now.value) }
    requires deals { IsDealing about.now (ask_seen ask.now) redraws.old }
    requires table { record { shape = redraws.old.shape; table = redraws.old.table }
        ≡ redrawn_for about.now (ask_seen ask.now) 0 }
    requires plays { IfSome left.old (λ machine. machine.about ≡ about.now) }
    ensures are { IfOk result (λ totals. totals.items ≡ tally_of about.now (ask_seen ask.now)) }
    ensures lacking { OnErr result (steps.new ≡ steps.old) }
    ensures counted { OnOk result (steps.new
        ≡ steps.old + (ask_seen ask.now).rounds * menu_size about.now (ask_seen ask.now).view) }
    ensures rises { steps.old ≤ steps.new }
    ensures bounded { steps.new ≤ steps.old + (ask_seen ask.now).rounds * menu_size about.now (ask_seen ask.now).view }
    ensures deals { OnOk result (IsDealing about.now (ask_seen ask.now) redraws.new) }
    ensures plays { IfSome left.new (λ machine. machine.about ≡ about.now) }
{
    match left {
        Some(machine) => {
            go_to_ask(about, ask, redraws.table(), machine);
            totals_by(alloc, about, ask, redraws, machine, steps)
        }
        None => {
            let mut machine = machine_at(alloc, about, ask, code, redraws.table())?;
            let totals = totals_by(alloc, about, ask, redraws, &mut machine, steps)?;
            *left = Some(machine);
            Ok(totals)
        }
    }
}

// A machine that is at home at the decision of an ask, with the table of the first round.
fn machine_at(
    alloc: Global,
    about: &About,
    ask: &Ask,
    code: &Arc<Code>,
    table: &Table,
) -> Result<HomeMachine, Memory>
    requires at { IsAtDecision about.now (ask_seen ask.now).view }
    requires code { StandsFor about.now.sheet (code_seen code.now.value) }
    requires table { table.now ≡ redrawn_for about.now (ask_seen ask.now) 0 }
    ensures { IfOk result (IsAtRound about.now (ask_seen ask.now) 0) }
{
    menu_sizes_are_functions_of_views();
    // what an about keeps
    let _sheet = about.sheet();
    let first = table.copy(alloc)?;
    let own = about.copy()?;
    HomeMachine::at_decision(alloc, code, own, first, ask.view.control.copy())
}
