//! A reader of forms, which knows the names of the sheet.
ghost use Rattle.std.specs.Prelude.{◌≡◌, ◌≤◌, ◌<◌, length, position, bytes_eq, IfOk, IfSome, IfNone};
ghost use Rattle.rc_base.specs.Limits.{most_attrs, most_values, most_maps, most_locations, most_numbers};

use crate::variables::{NumbersByWord, numbers_of};
use rc_ast::{LocName, Names, NumName};
use rc_base::OrderedWord;
use rc_form::WordRef;
use rc_resolve::Naming;
use std::alloc::{AllocError, Global};
use std::marker::Model;

/// The most variables of a sheet, which a number of 32 bits counts.
const MOST_NUMBERED: usize = u32::MAX as usize;

/// A reader of forms: the names of the sheet, each numbered by its place.
#[derive(Drop)]
pub struct Reader {
    pub(crate) names: Names,
    pub(crate) locs: Vec<LocName>,
    pub(crate) nums: Vec<NumName>,
    variables: NumbersByWord,
}

impl Model for Reader {
    ghost use Rattle.rc_sheet_spec.specs.Naming.{Naming};

    ghost Value = { Naming };

    ghost use Rattle.rc_sheet.specs.Reader.{naming_seen, IsReader};

    ghost view = { naming_seen };

    ghost invariant = { IsReader };
}

impl Reader {
    ghost use Rattle.rc_resolve.specs.Naming.{naming_seen};

    /// A reader with these names. There is none with more variables than a number of 32 bits counts, which are more
    /// than memory holds. The only error is want of memory.
    pub fn new(alloc: Global, naming: Naming) -> Result<Option<Reader>, AllocError>
        requires attrs { length naming.names.attrs.items ≤ most_attrs }
        requires values { length naming.names.values.items ≤ most_values }
        requires maps { length naming.names.maps.items ≤ most_maps }
        requires locs { length naming.names.locs.items ≤ most_locations }
        requires nums { length naming.names.nums.items ≤ most_numbers }
        ensures some { IfOk result (λ made. IfSome made (λ reader. reader ≡ naming_seen naming)) }
        ensures none { IfOk result (λ made. IfNone made (4294967295 < length naming.names.vars.items)) }
    {
        if naming.names.vars.len() > MOST_NUMBERED {
            return Ok(None);
        }
        let variables = numbers_of(alloc, &naming.names.vars)?;
        Ok(Some(Reader {
            names: naming.names,
            locs: naming.locs,
            nums: naming.nums,
            variables,
        }))
    }

    /// The number of the variable with this word.
    #[tactic(auto, using(crate::proofs::Numbers::found))]
    pub(crate) fn variable(&self, word: &WordRef) -> Option<u32>
        ensures number { result ≡ position (bytes_eq word.now) self.now.names.vars }
        ensures within { IfSome result (λ number. number < length self.now.names.vars) }
    {
        self.variables
            .get(&OrderedWord::of(word.to_word()))
            .copied()
    }
}
