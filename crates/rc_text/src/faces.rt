//! The legend: the faces of a sheet by their numbers.
ghost use Rattle.std.specs.Prelude.{◌≡◌, ◌++◌, codes, flat_map, IfOk, OnOk};
ghost use Rattle.rc_base.specs.Transcript.{line};
ghost use Rattle.rc_play_spec.specs.Shape.{face_at};
ghost use Rattle.rc_ast.specs.Sheet.{sheet_seen};
ghost use Rattle.rc_play_spec.specs.Naming.{legend_of, face_line, pair_text, word_at};

use crate::write::write_words;
use rc_ast::{Sheet, Word};
use rc_deck::Memory;
use rc_table::{Shape, face_number};
use std::alloc::{AllocError, Global};

/// The legend of a sheet with this shape: for each number of a face, from small to large, a line with its attributes
/// and values.
///
/// # Errors
///
/// No memory is left.
pub fn legend(alloc: Global, sheet: &Sheet, shape: &Shape) -> Result<Vec<u8>, Memory>
    ensures { IfOk result (λ bytes. bytes.items ≡ flat_map line (legend_of (sheet_seen sheet.now) shape.now)) }
{
    let mut out = Vec::new(alloc);
    for id in 0..shape.cards() {
        if face_number(shape, id) == id {
            add_face(&mut out, sheet, shape, id)?;
        }
    }
    Ok(out)
}

// Adds the line of a face.
fn add_face(out: &mut Vec<u8>, sheet: &Sheet, shape: &Shape, id: u16) -> Result<(), AllocError>
    ensures { OnOk result (out.new.items ≡ out.old.items ++ line (face_line (sheet_seen sheet.now) shape.now id)) }
{
    write_words(out, b"face ", u64::from(id))?;
    add_pairs(out, sheet, pairs_of(shape, id))?;
    out.push(b'\n')?;
    Ok(())
}

// The pairs of a card's face, or none where there is no such card.
fn pairs_of(shape: &Shape, id: u16) -> &[(u16, u16)]
    ensures { result.now ≡ face_at shape.now id }
{
    match shape.face(id) {
        Some(face) => face.pairs(),
        None => &[],
    }
}

// Adds the words of these pairs.
fn add_pairs(out: &mut Vec<u8>, sheet: &Sheet, pairs: &[(u16, u16)]) -> Result<(), AllocError>
    ensures { OnOk result (out.new.items ≡ out.old.items ++ flat_map (pair_text (sheet_seen sheet.now)) pairs.now) }
{
    for pair in pairs {
        add_word(out, &sheet.names.attrs, pair.0)?;
        add_word(out, &sheet.names.values, pair.1)?;
    }
    Ok(())
}

// Adds a space and the word with this number, if there is such a word.
fn add_word(out: &mut Vec<u8>, words: &[Word], number: u16) -> Result<(), AllocError>
    ensures { OnOk result (out.new.items ≡ out.old.items ++ (codes " " ++ word_at words.now number)) }
{
    out.push(b' ')?;
    if let Some(word) = words.get(number as usize) {
        out.extend_from_slice(word.bytes())?;
    }
    Ok(())
}
