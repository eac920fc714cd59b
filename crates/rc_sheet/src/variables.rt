//! The numbers of a sheet's variables, found by their words.
ghost use Rattle.std.specs.Prelude.{◌≡◌, ◌≤◌, ◌++◌, ◌∷◌, [], ℕ, List, OnOk, IfOk, length};
ghost use Rattle.rc_sheet.specs.Reader.{Numbers};

use rc_base::OrderedWord;
use rc_form::Word;
use std::alloc::{AllocError, Global};
use std::collections::BTreeMap;

/// Words with their numbers, in the order of their bytes.
pub type NumbersByWord = BTreeMap<OrderedWord, u32>;

/// The number of each of these words, which is its first place.
pub fn numbers_of(alloc: Global, words: &[Word]) -> Result<NumbersByWord, AllocError>
    requires few { length words.now ≤ 4294967295 }
    ensures { IfOk result (λ numbers. Numbers words.now numbers) }
{
    let mut numbers = BTreeMap::new(alloc);
    for (place, word) in words.iter().enumerate() {
        add_first(&mut numbers, *word, place as u32)?;
    }
    Ok(numbers)
}

/// Gives a word its number, unless it has one.
fn add_first(numbers: &mut NumbersByWord, word: Word, number: u32) -> Result<(), AllocError>
    ensures { (words : List (List ℕ)) → Numbers words numbers.old → number ≡ length words
        → OnOk result (Numbers (words ++ word ∷ []) numbers.new) }
{
    let word = OrderedWord::of(word);
    if numbers.contains_key(&word) {
        return Ok(());
    }
    numbers.insert(word, number)?;
    Ok(())
}
