//! Prints names, owners and locations.
ghost use Rattle.std.specs.Prelude.{◌≡◌, ◌∷◌, ◌++◌, OnOk, IfOk};
ghost use Rattle.rc_base.specs.Tree.{printed};
ghost use Rattle.rc_sheet_spec.specs.Printing.{named, binding, who_form, kind_form, loc_form, num_form};
ghost use Rattle.rc_ast.specs.Names.{who_seen, loc_seen, num_seen};
ghost use Rattle.rc_print.specs.Printing.{naming_seen, bound_seen};

use crate::printer::Printer;
use rc_ast::{Loc, LocKind, Num, Sheet, Who, Word};
use std::alloc::AllocError;

/// Adds the word of this number, or nothing where there is none.
pub fn push_named(out: &mut Printer, words: &[Word], place: usize) -> Result<(), AllocError>
    ensures { OnOk result (out.new.bytes.items ≡ out.old.bytes.items ++ printed (named words.now place)) }
{
    if place < words.len() {
        out.add(words[place].bytes())
    } else {
        Ok(())
    }
}

/// Adds a space and the word of this number.
pub fn push_word(out: &mut Printer, words: &[Word], place: usize) -> Result<(), AllocError>
    ensures { OnOk result (out.new.bytes.items ≡ out.old.bytes.items ++ 32 ∷ printed (named words.now place)) }
{
    out.space()?;
    push_named(out, words, place)
}

/// A variable in scope: the player whose score is told, or one that a binder names.
#[derive(Clone, Copy)]
pub enum Variable {
    Own,
    Named(u32),
}

/// The variables in scope behind a binder.
pub fn behind(
    out: &Printer,
    sheet: &Sheet,
    bound: &[Variable],
    var: u32,
) -> Result<Vec<Variable>, AllocError>
    ensures { IfOk result (λ inner. bound_seen sheet.now inner.items
        ≡ binding (naming_seen sheet.now) (bound_seen sheet.now bound.now) var) }
{
    let mut inner = Vec::from_slice(out.alloc, bound)?;
    inner.push(Variable::Named(var))?;
    Ok(inner)
}

/// Adds the word of the variable in this place of the scope.
pub fn push_variable(
    out: &mut Printer,
    sheet: &Sheet,
    bound: &[Variable],
    place: u8,
) -> Result<(), AllocError>
    ensures { OnOk result (out.new.bytes.items
        ≡ out.old.bytes.items ++ printed (named (bound_seen sheet.now bound.now) place)) }
{
    if usize::from(place) < bound.len() {
        match bound[usize::from(place)] {
            Variable::Own => out.keyword("'SELF"),
            Variable::Named(var) => push_named(out, &sheet.names.vars, var as usize),
        }
    } else {
        Ok(())
    }
}

/// Adds a space and the word of the variable in this place of the scope.
pub fn push_part_variable(
    out: &mut Printer,
    sheet: &Sheet,
    bound: &[Variable],
    place: u8,
) -> Result<(), AllocError>
    ensures { OnOk result (out.new.bytes.items ≡ out.old.bytes.items
        ++ 32 ∷ printed (named (bound_seen sheet.now bound.now) place)) }
{
    out.space()?;
    push_variable(out, sheet, bound, place)
}

/// Adds a space and the word of a variable where it is bound.
pub fn push_binder(out: &mut Printer, sheet: &Sheet, var: u32) -> Result<(), AllocError>
    ensures { OnOk result (out.new.bytes.items ≡ out.old.bytes.items
        ++ 32 ∷ printed (named (naming_seen sheet.now).names.vars var)) }
{
    push_word(out, &sheet.names.vars, var as usize)
}

pub fn push_who(
    out: &mut Printer,
    sheet: &Sheet,
    bound: &[Variable],
    who: Who,
) -> Result<(), AllocError>
    ensures { OnOk result (out.new.bytes.items ≡ out.old.bytes.items
        ++ printed (who_form (bound_seen sheet.now bound.now) (who_seen who))) }
{
    match who {
        Who::Game => out.keyword("game"),
        Who::CurrentPlayer => out.keyword("(current player)"),
        Who::CurrentTeam => out.keyword("(current team)"),
        Who::TeamOfCurrent => out.keyword("(team of (current player))"),
        Who::TeamOfVar(var) => {
            out.keyword("(team of ")?;
            push_variable(out, sheet, bound, var)?;
            out.close()
        }
        Who::Var(var) => push_variable(out, sheet, bound, var),
    }
}

/// Adds a space and an owner.
pub fn push_part_who(
    out: &mut Printer,
    sheet: &Sheet,
    bound: &[Variable],
    who: Who,
) -> Result<(), AllocError>
    ensures { OnOk result (out.new.bytes.items ≡ out.old.bytes.items
        ++ 32 ∷ printed (who_form (bound_seen sheet.now bound.now) (who_seen who))) }
{
    out.space()?;
    push_who(out, sheet, bound, who)
}

/// Adds the word of the kind that the locations of this name have.
pub fn push_kind(out: &mut Printer, sheet: &Sheet, name: u16) -> Result<(), AllocError>
    ensures { OnOk result (out.new.bytes.items
        ≡ out.old.bytes.items ++ printed (kind_form (naming_seen sheet.now) name)) }
{
    match sheet.locs.get(usize::from(name)) {
        Some(loc) => match loc.kind {
            LocKind::Vloc => out.keyword("vloc"),
            LocKind::Iloc => out.keyword("iloc"),
            LocKind::Hloc => out.keyword("hloc"),
            LocKind::Mem => out.keyword("mem"),
        },
        None => Ok(()),
    }
}

/// Adds a space and a location.
pub fn push_loc(
    out: &mut Printer,
    sheet: &Sheet,
    bound: &[Variable],
    loc: &Loc,
) -> Result<(), AllocError>
    ensures { OnOk result (out.new.bytes.items ≡ out.old.bytes.items
        ++ 32 ∷ printed (loc_form (naming_seen sheet.now) (bound_seen sheet.now bound.now) (loc_seen loc.now))) }
{
    out.keyword(" (")?;
    push_who(out, sheet, bound, loc.who)?;
    out.space()?;
    push_kind(out, sheet, loc.name)?;
    push_word(out, &sheet.names.locs, usize::from(loc.name))?;
    out.close()
}

/// Adds a space and a number that the game keeps.
pub fn push_num(
    out: &mut Printer,
    sheet: &Sheet,
    bound: &[Variable],
    num: &Num,
) -> Result<(), AllocError>
    ensures { OnOk result (out.new.bytes.items ≡ out.old.bytes.items
        ++ 32 ∷ printed (num_form (naming_seen sheet.now) (bound_seen sheet.now bound.now) (num_seen num.now))) }
{
    out.keyword(" (")?;
    push_who(out, sheet, bound, num.who)?;
    out.keyword(" sto")?;
    push_word(out, &sheet.names.nums, usize::from(num.name))?;
    out.close()
}
