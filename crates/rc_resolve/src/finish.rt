//! The naming that the known names are.
ghost use Rattle.std.specs.Prelude.{◌≡◌, ◌≤◌, length, map, IfOk};
ghost use Rattle.std.specs.Map.{keys_of};
ghost use Rattle.rc_ast.specs.Names.{loc_name_seen, num_name_seen};
ghost use Rattle.rc_resolve.specs.Known.{naming_by, loc_seen, num_seen};
ghost use Rattle.rc_resolve.specs.Naming.{naming_seen, loc_names, num_names};

use crate::known::Known;
use crate::numbering::Naming;
use crate::uses::Located;
use rc_ast::{Class, LocName, Names, NumName};
use rc_base::OrderedWord;
use rc_form::Word;
use std::alloc::{AllocError, Global};

impl Known {
    /// The naming by these names.
    pub fn naming(&self, alloc: Global) -> Result<Naming, AllocError>
        requires locs { length self.now.locs ≤ 65536 }
        requires nums { length self.now.nums ≤ 65536 }
        ensures { IfOk result (λ naming. naming_seen naming ≡ naming_by self.now) }
    {
        let names = Names {
            attrs: words_of(alloc, self.attrs.entries())?,
            values: words_of(alloc, self.values.entries())?,
            maps: words_of(alloc, self.maps.entries())?,
            locs: words_of(alloc, self.locs.entries())?,
            nums: words_of(alloc, self.nums.entries())?,
            vars: words_of(alloc, self.vars.entries())?,
        };
        Ok(Naming {
            names,
            locs: loc_names(alloc, self.locs.entries())?,
            nums: num_names(alloc, self.nums.entries())?,
        })
    }
}

/// The words of entries.
fn words_of<V>(alloc: Global, entries: &[(OrderedWord, V)]) -> Result<Vec<Word>, AllocError>
    ensures { IfOk result (λ words. words.items ≡ keys_of entries.now) }
{
    let mut words = Vec::with_capacity(alloc, entries.len())?;
    for entry in entries {
        words.push(entry.0.word())?;
    }
    Ok(words)
}

fn loc_names(alloc: Global, locs: &[(OrderedWord, Located)]) -> Result<Vec<LocName>, AllocError>
    requires { length locs.now ≤ 65536 }
    ensures { IfOk result (λ list. map loc_name_seen list.items ≡ loc_names 0 (map loc_seen locs.now)) }
{
    let mut list = Vec::with_capacity(alloc, locs.len())?;
    for entry in locs {
        list.push(LocName {
            name: list.len() as u16,
            kind: entry.1.kind,
            class: entry.1.class,
        })?;
    }
    Ok(list)
}

fn num_names(alloc: Global, nums: &[(OrderedWord, Class)]) -> Result<Vec<NumName>, AllocError>
    requires { length nums.now ≤ 65536 }
    ensures { IfOk result (λ list. map num_name_seen list.items ≡ num_names 0 (map num_seen nums.now)) }
{
    let mut list = Vec::with_capacity(alloc, nums.len())?;
    for entry in nums {
        list.push(NumName {
            name: list.len() as u16,
            class: entry.1,
        })?;
    }
    Ok(list)
}
