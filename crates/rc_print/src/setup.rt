//! Prints the lines of the setup.
ghost use Rattle.std.specs.Prelude.{◌≡◌, ◌++◌, map, option_map, pos, OnOk};
ghost use Rattle.rc_base.specs.Tree.{printed, printed_parts, printed_behind};
ghost use Rattle.rc_deck.specs.Points.{entries_of};
ghost use Rattle.rc_sheet_spec.specs.StandsSetup.{numbered};
ghost use Rattle.rc_sheet_spec.specs.Printing.{packed, players_form, team_form, teams_forms, deck_form, map_form, number_form};
ghost use Rattle.rc_ast.specs.Sheet.{teams_seen, deck_line_seen};
ghost use Rattle.rc_print.specs.Printing.{naming_seen};

use crate::decks::{push_entries, push_groups};
use crate::printer::Printer;
use crate::words::{push_kind, push_named};
use rc_ast::{DeckLine, Sheet, Teams};
use rc_deck::PointMap;
use std::alloc::AllocError;

pub fn push_players(out: &mut Printer, players: u8) -> Result<(), AllocError>
    ensures { OnOk result (out.new.bytes.items ≡ out.old.bytes.items ++ printed (players_form players)) }
{
    out.open("create")?;
    out.space()?;
    out.keyword("players")?;
    out.space()?;
    out.number(i64::from(players))?;
    out.close()
}

/// Adds a team's players with a space between them.
fn push_members(out: &mut Printer, team: &[u8]) -> Result<(), AllocError>
    ensures { OnOk result (out.new.bytes.items ≡ out.old.bytes.items
        ++ printed_parts (packed (map (λ player. number_form (pos player)) team.now))) }
{
    let Some((first, others)) = team.split_first() else {
        return Ok(());
    };
    out.number(i64::from(*first))?;
    for player in others {
        out.space()?;
        out.number(i64::from(*player))?;
    }
    Ok(())
}

fn push_team(out: &mut Printer, team: &[u8]) -> Result<(), AllocError>
    ensures { OnOk result (out.new.bytes.items ≡ out.old.bytes.items ++ printed (team_form team.now)) }
{
    out.begin()?;
    push_members(out, team)?;
    out.close()
}

/// Adds the line of the teams where they are written, with a space before it.
pub fn push_teams(out: &mut Printer, teams: &Option<Teams>) -> Result<(), AllocError>
    ensures { OnOk result (out.new.bytes.items ≡ out.old.bytes.items
        ++ printed_behind (packed (teams_forms (option_map teams_seen teams.now)))) }
{
    let Some(teams) = teams else {
        return Ok(());
    };
    out.space()?;
    out.open("create teams")?;
    for team in &teams.list {
        out.space()?;
        push_team(out, team)?;
    }
    out.close()
}

fn push_deck(out: &mut Printer, sheet: &Sheet, line: &DeckLine) -> Result<(), AllocError>
    ensures { OnOk result (out.new.bytes.items
        ≡ out.old.bytes.items ++ printed (deck_form (naming_seen sheet.now) (deck_line_seen line.now))) }
{
    out.open("create deck (game")?;
    out.space()?;
    push_kind(out, sheet, line.loc)?;
    out.space()?;
    push_named(out, &sheet.names.locs, usize::from(line.loc))?;
    out.keyword(") (deck")?;
    push_groups(out, sheet, &line.tree.groups)?;
    out.keyword("))")
}

/// Adds each with a space before it.
pub fn push_decks(out: &mut Printer, sheet: &Sheet, decks: &[DeckLine]) -> Result<(), AllocError>
    ensures { OnOk result (out.new.bytes.items ≡ out.old.bytes.items
        ++ printed_behind (packed (map (deck_form (naming_seen sheet.now)) (map deck_line_seen decks.now)))) }
{
    for line in decks {
        out.space()?;
        push_deck(out, sheet, line)?;
    }
    Ok(())
}

fn push_points(
    out: &mut Printer,
    sheet: &Sheet,
    number: usize,
    points: &PointMap,
) -> Result<(), AllocError>
    ensures { OnOk result (out.new.bytes.items
        ≡ out.old.bytes.items ++ printed (map_form (naming_seen sheet.now) (number, entries_of points.now))) }
{
    out.open("put points")?;
    out.space()?;
    push_named(out, &sheet.names.maps, number)?;
    out.keyword(" (")?;
    push_entries(out, sheet, &points.entries)?;
    out.keyword("))")
}

/// Adds each with a space before it.
pub fn push_maps(out: &mut Printer, sheet: &Sheet, maps: &[PointMap]) -> Result<(), AllocError>
    ensures { OnOk result (out.new.bytes.items ≡ out.old.bytes.items
        ++ printed_behind (packed (map (map_form (naming_seen sheet.now)) (numbered (map entries_of maps.now))))) }
{
    let mut number = 0usize;
    for points in maps {
        out.space()?;
        push_points(out, sheet, number, points)?;
        number += 1;
    }
    Ok(())
}
