//! Places of a location that a view knows, and the others.
ghost use Rattle.std.specs.Prelude.{◌≡◌, ◌≤◌, ◌++◌, [], length, OnOk};
ghost use Rattle.rc_play_spec.specs.Redraw.{known_faces, unknown, mixed};
ghost use Rattle.rc_redraw.specs.Hiding.{pattern_at, blended, blanks};

use rc_deck::Memory;

/// How many places are known.
pub(crate) fn count_known(numbers: &[Option<u16>]) -> usize
    ensures { result ≡ length (known_faces numbers.now) }
{
    let mut count = 0;
    for at in 0..numbers.len() {
        if let Some(_number) = numbers[at] {
            count += 1;
        }
    }
    count
}

/// How many are not.
pub(crate) fn count_unknown(numbers: &[Option<u16>]) -> usize
    ensures { result ≡ unknown numbers.now }
{
    let mut count = 0;
    for at in 0..numbers.len() {
        if numbers[at].is_none() {
            count += 1;
        }
    }
    count
}

/// Adds the faces at the known places.
pub(crate) fn push_known(numbers: &[Option<u16>], faces: &mut Vec<u16>) -> Result<(), Memory>
    ensures { OnOk result (faces.new.items ≡ faces.old.items ++ known_faces numbers.now) }
{
    for at in 0..numbers.len() {
        if let Some(number) = numbers[at] {
            faces.push(number)?;
        }
    }
    Ok(())
}

/// Lists what the places hold: the known ones the first of `seen`, and the others the first of `hidden`.
#[tactic(auto, using(crate::proofs::NoneKnown::all_unknown, crate::proofs::NoneKnown::all_hidden))]
pub(crate) fn mix(
    numbers: &[Option<u16>],
    seen: &[u16],
    hidden: &[u16],
    list: &mut Vec<u16>,
) -> Result<(), Memory>
    requires empty { list.old.items ≡ [] }
    requires seen { length (known_faces numbers.now) ≤ length seen.now }
    requires hidden { unknown numbers.now ≤ length hidden.now }
    ensures { OnOk result (list.new.items ≡ mixed numbers.now seen.now hidden.now) }
{
    if count_known(numbers) == 0 {
        list.extend_from_slice(&hidden[..numbers.len()])?;
        return Ok(());
    }
    let mut known = 0;
    let mut other = 0;
    for at in 0..numbers.len() {
        if let Some(_number) = numbers[at] {
            list.push(seen[known])?;
            known += 1;
        } else {
            list.push(hidden[other])?;
            other += 1;
        }
    }
    Ok(())
}

/// Adds the first of `seen` for the known places, and nothing for the others.
pub(crate) fn push_pattern(
    numbers: &[Option<u16>],
    seen: &[u16],
    pattern: &mut Vec<Option<u16>>,
) -> Result<(), Memory>
    requires { length (known_faces numbers.now) ≤ length seen.now }
    ensures { OnOk result (pattern.new.items ≡ pattern.old.items ++ pattern_at numbers.now seen.now) }
{
    let mut known = 0;
    for at in 0..numbers.len() {
        if let Some(_number) = numbers[at] {
            pattern.push(Some(seen[known]))?;
            known += 1;
        } else {
            pattern.push(None)?;
        }
    }
    Ok(())
}

/// Writes what a pattern becomes with these ids in its other places.
pub(crate) fn blend(content: &mut [u16], pattern: &[Option<u16>], hidden: &[u16])
    requires each { length content.old ≡ length pattern.now }
    requires enough { blanks pattern.now ≤ length hidden.now }
    ensures blended { content.new ≡ blended pattern.now hidden.now }
    ensures each { length content.new ≡ length content.old }
{
    let mut other = 0;
    for at in 0..pattern.len() {
        if let Some(id) = pattern[at] {
            content[at] = id;
        } else {
            content[at] = hidden[other];
            other += 1;
        }
    }
}
