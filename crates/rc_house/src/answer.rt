//! What a command answers to the bytes of its source, or what is to be played before it can.
ghost use Rattle.std.specs.Prelude.{◌≡◌, ◌≤◌, length, IfOk, All};
ghost use Rattle.rc_base.specs.Placed.{IsPlaced};
ghost use Rattle.rc_base.specs.Spelled.{Spelled};
ghost use Rattle.rc_base.specs.Limits.{longest_text};
ghost use Rattle.rc_form.specs.Form.{tree_of, trees_of, IsPrintable};
ghost use Rattle.rc_form.specs.SameForm.{IsOfAtoms};
ghost use Rattle.rc_house.specs.declared.refusal.Refusal.TheVariants as refusal;
ghost use Rattle.rc_house.specs.declared.status.SourceKind.TheVariants.{Shape};
ghost use Rattle.rc_house.specs.Status.{source_kind};
ghost use Rattle.rc_house.specs.declared.options.Options.{Options};
ghost use Rattle.rc_house.specs.declared.task.Task.TheVariants as task;
ghost use Rattle.rc_house.specs.Task.{CanSearch, wanted};
ghost use Rattle.rc_house.specs.Reading.{IsAcceptedWith};
ghost use Rattle.rc_house.specs.declared.answer.Answer.TheVariants as stored;
ghost use Rattle.rc_house.specs.Answer.{IsAnswerTo, IsPlanRefusal, IsPrepared, IsSheetText, task_of};

use crate::accepting::{SourceFail, accept};
use crate::note::Note;
use crate::planning::{plan_behind, read_plan};
use crate::printing::print_line;
use crate::refusal::Refusal;
use crate::rival::Rival;
use crate::rivalling::rivalled_answer;
use crate::status::SourceKind;
use crate::task::Task;
use crate::transcript::{Judging, judged_answer};
use crate::watching::watched_answer;
use bumpalo::Bump;
use rc_deck::Memory;
use rc_flow::Checked;
use rc_form::{FormFail, FormFault, Forms, read_forms};
use rc_plan::PlanFail;
use rc_rules::Plan;
use std::alloc::Global;

/// What a command answers to its source.
#[derive(Drop)]
pub enum Answer {
    /// The text that it writes, and what it notes then.
    Text(Vec<u8>, Note),
    /// Why it writes none.
    Refused(Refusal),
}

/// The matches of a plan for a sheet.
#[derive(Drop)]
pub struct Game {
    pub checked: Checked,
    pub plan: Plan,
}

/// What a command makes of its source before anybody plays.
#[derive(Drop)]
pub enum Prepared {
    /// Its answer.
    Answered(Answer),
    /// The matches that are to be played.
    Playing(Game),
}

/// What a command makes of its source before anybody plays. Memory may run out.
pub fn prepare(alloc: Global, task: Task, source: &[u8]) -> Result<Prepared, Memory>
    requires small { length source.now ≤ longest_text }
    requires searches { CanSearch task }

    // It is the command's answer to these bytes, or the sheet and the plan whose matches are to be played for it.
    ensures { IfOk result (IsPrepared task source.now) }
{
    let arena = Bump::new(alloc);
    match read_forms(&arena, source, task.wanted_lists()) {
        Ok(forms) => prepare_forms(alloc, task, source, &forms),
        Err(FormFail::Fault(form_fault)) => Ok(Prepared::Answered(fault_of(form_fault))),
        Err(FormFail::Memory) => Err(Memory),
    }
}

/// The answer to a source whose forms have this fault.
fn fault_of(form_fault: FormFault) -> Answer
    ensures { result ≡ stored.Refused (refusal.Sheet (source_kind form_fault.kind) form_fault.at) }
{
    Answer::Refused(Refusal::Sheet {
        kind: SourceKind::from(form_fault.kind),
        at: form_fault.at,
    })
}

/// What a command makes of a source with these forms.
fn prepare_forms(
    alloc: Global,
    task: Task,
    source: &[u8],
    forms: &Forms,
) -> Result<Prepared, Memory>
    requires searches { CanSearch task }
    requires small { length source.now ≤ longest_text }
    requires within { forms.now.rest ≤ length source.now }
    requires read { Spelled source.now (wanted task) (trees_of forms.now.list.items) forms.now.rest }
    requires printable { All (λ form. IsPrintable (tree_of form)) forms.now.list.items }
    requires of_atoms { All (λ form. IsOfAtoms (tree_of form)) forms.now.list.items }
    requires placed { All (λ form. IsPlaced (length source.now) (tree_of form)) forms.now.list.items }
    ensures { IfOk result (IsPrepared task source.now) }
{
    let Some(form) = forms.list.first() else {
        return Ok(Prepared::Answered(answer_without_sheet(forms)));
    };
    match accept(alloc, form) {
        Ok(checked) => prepare_sheet(alloc, task, source, forms, checked),
        Err(SourceFail::Fault { kind, at }) => Ok(Prepared::Answered(Answer::Refused(
            Refusal::Sheet { kind, at },
        ))),
        Err(SourceFail::Memory) => Err(Memory),
    }
}

/// The answer where the sheet is missing.
fn answer_without_sheet(forms: &Forms) -> Answer
    requires { forms.now.rest ≤ longest_text }
    ensures { result ≡ stored.Refused (refusal.Sheet Shape forms.now.rest) }
{
    Answer::Refused(Refusal::Sheet {
        kind: SourceKind::Shape,
        at: forms.rest as u32,
    })
}

/// What a command makes of a source with these forms, of which the first is accepted as this sheet.
fn prepare_sheet(
    alloc: Global,
    task: Task,
    source: &[u8],
    forms: &Forms,
    checked: Checked,
) -> Result<Prepared, Memory>
    requires searches { CanSearch task }
    requires small { length source.now ≤ longest_text }
    requires within { forms.now.rest ≤ length source.now }
    requires read { Spelled source.now (wanted task) (trees_of forms.now.list.items) forms.now.rest }
    requires placed { All (λ form. IsPlaced (length source.now) (tree_of form)) forms.now.list.items }
    requires accepted { IsAcceptedWith (λ sheet _. sheet ≡ checked) (trees_of forms.now.list.items) }
    ensures { IfOk result (IsPrepared task source.now) }
{
    match task {
        Task::Play(_) => prepare_play(alloc, source, forms, checked),
        Task::Check => {
            let answer = transcript_answer(alloc, Judging::Check, source, forms, checked)?;
            Ok(Prepared::Answered(answer))
        }
        Task::Sheet => Ok(Prepared::Answered(sheet_answer(alloc, &checked)?)),
        Task::Migrate => {
            let answer = transcript_answer(alloc, Judging::Migrate, source, forms, checked)?;
            Ok(Prepared::Answered(answer))
        }
        Task::Watch { seat, number } => {
            let answer = watch_answer(alloc, seat, number, source, forms, checked)?;
            Ok(Prepared::Answered(answer))
        }
        Task::Measure => {
            let answer = transcript_answer(alloc, Judging::Measure, source, forms, checked)?;
            Ok(Prepared::Answered(answer))
        }
        Task::Rival(rival) => {
            let answer = rival_answer(alloc, rival, source, forms, checked)?;
            Ok(Prepared::Answered(answer))
        }
    }
}

/// What `play` makes of a source with these forms, of which the first is accepted as this sheet.
fn prepare_play(
    alloc: Global,
    source: &[u8],
    forms: &Forms,
    checked: Checked,
) -> Result<Prepared, Memory>
    requires small { length source.now ≤ longest_text }
    requires within { forms.now.rest ≤ length source.now }
    requires read { Spelled source.now 2 (trees_of forms.now.list.items) forms.now.rest }
    requires placed { All (λ form. IsPlaced (length source.now) (tree_of form)) forms.now.list.items }
    requires accepted { IsAcceptedWith (λ sheet _. sheet ≡ checked) (trees_of forms.now.list.items) }
    ensures { (options : Options) → IfOk result (IsPrepared (task.Play options) source.now) }
{
    let players = checked.sheet().players;
    match read_plan(alloc, source, forms, players) {
        Ok(plan) => Ok(Prepared::Playing(Game { checked, plan })),
        Err(fail) => Ok(Prepared::Answered(plan_failed(fail)?)),
    }
}

/// The answer of `watch` to a source with these forms, of which the first is accepted as this sheet.
fn watch_answer(
    alloc: Global,
    seat: u8,
    number: u32,
    source: &[u8],
    forms: &Forms,
    checked: Checked,
) -> Result<Answer, Memory>
    requires small { length source.now ≤ longest_text }
    requires within { forms.now.rest ≤ length source.now }
    requires read { Spelled source.now 2 (trees_of forms.now.list.items) forms.now.rest }
    requires placed { All (λ form. IsPlaced (length source.now) (tree_of form)) forms.now.list.items }
    requires accepted { IsAcceptedWith (λ sheet _. sheet ≡ checked) (trees_of forms.now.list.items) }
    ensures { IfOk result (IsAnswerTo (task.Watch seat number) source.now) }
{
    let players = checked.sheet().players;
    match read_plan(alloc, source, forms, players) {
        Ok(plan) => watched_answer(alloc, Game { checked, plan }, seat, number),
        Err(fail) => plan_failed(fail),
    }
}

/// The answer of `rival` to a source with these forms, of which the first is accepted as this sheet.
fn rival_answer(
    alloc: Global,
    rival: Rival,
    source: &[u8],
    forms: &Forms,
    checked: Checked,
) -> Result<Answer, Memory>
    requires small { length source.now ≤ longest_text }
    requires within { forms.now.rest ≤ length source.now }
    requires read { Spelled source.now 2 (trees_of forms.now.list.items) forms.now.rest }
    requires placed { All (λ form. IsPlaced (length source.now) (tree_of form)) forms.now.list.items }
    requires accepted { IsAcceptedWith (λ sheet _. sheet ≡ checked) (trees_of forms.now.list.items) }
    requires deep { 1 ≤ rival.depth }
    requires some { 1 ≤ rival.rounds }
    ensures { IfOk result (IsAnswerTo (task.Rival rival) source.now) }
{
    let players = checked.sheet().players;
    match read_plan(alloc, source, forms, players) {
        Ok(plan) => rivalled_answer(alloc, Game { checked, plan }, rival),
        Err(fail) => plan_failed(fail),
    }
}

/// The answer of a command that judges, to a source with these forms, of which the first is accepted as this sheet.
fn transcript_answer(
    alloc: Global,
    asked: Judging,
    source: &[u8],
    forms: &Forms,
    checked: Checked,
) -> Result<Answer, Memory>
    requires small { length source.now ≤ longest_text }
    requires within { forms.now.rest ≤ length source.now }
    requires read { Spelled source.now 2 (trees_of forms.now.list.items) forms.now.rest }
    requires placed { All (λ form. IsPlaced (length source.now) (tree_of form)) forms.now.list.items }
    requires accepted { IsAcceptedWith (λ sheet _. sheet ≡ checked) (trees_of forms.now.list.items) }
    ensures { IfOk result (IsAnswerTo (task_of asked) source.now) }
{
    let players = checked.sheet().players;
    match plan_behind(alloc, forms, players) {
        Ok(plan) => judged_answer(alloc, asked, checked, &plan, &source[forms.rest..]),
        Err(fail) => plan_failed(fail),
    }
}

/// The answer of `sheet` where this sheet is accepted.
fn sheet_answer(alloc: Global, checked: &Checked) -> Result<Answer, Memory>
    ensures { IfOk result (IsSheetText checked.now) }
{
    let line = print_line(alloc, checked.sheet())?;
    Ok(Answer::Text(line, Note::Nothing))
}

/// The answer where the plan fails so.
fn plan_failed(fail: PlanFail) -> Result<Answer, Memory>
    ensures { IfOk result (IsPlanRefusal fail) }
{
    match fail {
        PlanFail::Fault(fault) => Ok(Answer::Refused(Refusal::Plan {
            kind: fault.kind,
            at: fault.at,
        })),
        PlanFail::Memory => Err(Memory),
    }
}
