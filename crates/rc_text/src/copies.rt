//! Copies of house texts.
ghost use Rattle.std.specs.Prelude.{◌≡◌, map, IfOk};
ghost use Rattle.rc_rules.specs.Record.{record_seen};
ghost use Rattle.rc_text.specs.House.{house_text_seen};

use crate::house::HouseText;
use rc_deck::Memory;
use rc_rules::MatchRecord;
use std::alloc::Global;

impl HouseText {
    /// The same text once more.
    ///
    /// # Errors
    ///
    /// No memory is left.
    pub fn copy(&self, alloc: Global) -> Result<HouseText, Memory>
        ensures { IfOk result (λ copy. house_text_seen copy ≡ house_text_seen self.now) }
    {
        let matches = copy_matches(alloc, &self.matches)?;
        let standings = Vec::from_slice(alloc, &self.standings)?;
        Ok(HouseText { matches, standings })
    }
}

fn copy_matches(alloc: Global, matches: &[MatchRecord]) -> Result<Vec<MatchRecord>, Memory>
    ensures { IfOk result (λ copies. map record_seen copies.items ≡ map record_seen matches.now) }
{
    let mut copies = Vec::new(alloc);
    for played in matches {
        copies.push(copy_match(alloc, played)?)?;
    }
    Ok(copies)
}

fn copy_match(alloc: Global, played: &MatchRecord) -> Result<MatchRecord, Memory>
    ensures { IfOk result (λ copy. record_seen copy ≡ record_seen played.now) }
{
    let picks = Vec::from_slice(alloc, &played.picks)?;
    let scores = Vec::from_slice(alloc, &played.scores)?;
    Ok(MatchRecord {
        number: played.number,
        deal: played.deal,
        seats: played.seats,
        picks,
        shuffles: played.shuffles,
        stop: played.stop,
        turn: played.turn,
        scores,
    })
}
