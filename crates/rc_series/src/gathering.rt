//! What all workers did is put together.
ghost use Rattle.std.specs.Prelude.{◌≡◌, ◌<◌, ◌++◌, ◌∷◌, [], Bool, List, length, IfOk};
ghost use Rattle.std.specs.List.{AllByRecursion};
ghost use Rattle.rc_play_spec.specs.About.{About};
ghost use Rattle.rc_play_spec.specs.Plan.{Plan};
ghost use Rattle.rc_claims.specs.Claims.{joined};
ghost use Rattle.rc_series.specs.declared.turn.Worker.{Worker};
ghost use Rattle.rc_series.specs.Gathered.{AreTurns, IsGathered, IsOwn};

use crate::turn::Turn;
use rc_claims::{Claims, Pass};
use rc_deck::Memory;
use rc_match::Played;
use rc_redraw::Chooser;
use std::alloc::Global;

/// What some workers have together: the passes as one, all records, and the choosers in the order of the workers.
#[derive(Drop)]
pub(crate) struct Gathered<C: Drop> {
    pub(crate) pass: Pass,
    pub(crate) records: Vec<Played>,
    pub(crate) choosers: Vec<C>,
}

/// All turns together. Memory may have run out in one of them, or here.
pub(crate) fn gather<C: Chooser + Drop>(
    alloc: Global,
    claims: &Claims,
    turns: Vec<Result<Turn<C>, Memory>>,
) -> Result<Gathered<C>, Memory>
    requires some { 0 < length turns.items }
    requires own { AllByRecursion (IsOwn claims.now.table) turns.items }
    ensures own { IfOk result (λ g. g.pass.table ≡ claims.now.table) }
    ensures gathered { IfOk result (λ g. (noted : Bool) (about : About) (plan : Plan) (workers : List (Worker C))
        → AreTurns C.name C.counts noted about plan workers turns.items
        → IsGathered C.name C.counts noted about plan workers g.pass g.records.items g.choosers.items) }
{
    let mut rest = turns;
    let mut gathered = match rest.remove(0) {
        Ok(turn) => match begin(alloc, turn) {
            Ok(gathered) => gathered,
            Err(Memory) => return Err(Memory),
        },
        Err(Memory) => return Err(Memory),
    };
    while !rest.is_empty() {
        match rest.remove(0) {
            Ok(turn) => match add(claims, gathered, turn) {
                Ok(more) => gathered = more,
                Err(Memory) => return Err(Memory),
            },
            Err(Memory) => return Err(Memory),
        }
    }
    Ok(gathered)
}

// What one worker has.
fn begin<C: Chooser + Drop>(alloc: Global, turn: Turn<C>) -> Result<Gathered<C>, Memory>
    ensures { IfOk result (λ g. (g.pass ≡ turn.pass) × (g.records.items ≡ turn.records.items)
        × (g.choosers.items ≡ turn.chooser ∷ [])) }
{
    let Turn {
        pass,
        records,
        chooser,
    } = turn;
    let mut choosers = Vec::new(alloc);
    match choosers.push(chooser) {
        Ok(()) => Ok(Gathered {
            pass,
            records,
            choosers,
        }),
        Err(_) => Err(Memory),
    }
}

// And one worker more.
fn add<C: Chooser + Drop>(
    claims: &Claims,
    gathered: Gathered<C>,
    turn: Turn<C>,
) -> Result<Gathered<C>, Memory>
    requires own { gathered.pass.table ≡ claims.now.table }
    requires other { turn.pass.table ≡ claims.now.table }
    ensures pass { IfOk result (λ g. g.pass ≡ joined gathered.pass turn.pass) }
    ensures records { IfOk result (λ g. g.records.items ≡ gathered.records.items ++ turn.records.items) }
    ensures choosers { IfOk result (λ g. g.choosers.items ≡ gathered.choosers.items ++ turn.chooser ∷ []) }
{
    let Gathered {
        mut pass,
        mut records,
        mut choosers,
    } = gathered;
    let mut played = turn.records;
    claims.join(&mut pass, turn.pass);
    match records.append(&mut played) {
        Ok(()) => {}
        Err(_) => return Err(Memory),
    }
    match choosers.push(turn.chooser) {
        Ok(()) => Ok(Gathered {
            pass,
            records,
            choosers,
        }),
        Err(_) => Err(Memory),
    }
}
