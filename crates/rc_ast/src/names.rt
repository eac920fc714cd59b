//! What the numbers of a sheet stand for.

use rc_base::{Class, LocKind, Word};

/// The words of a sheet, each of which is numbered by its place in its list.
#[derive(Debug)]
pub struct Names {
    pub attrs: Vec<Word>,
    pub values: Vec<Word>,
    pub maps: Vec<Word>,
    pub locs: Vec<Word>,
    pub nums: Vec<Word>,
    pub vars: Vec<Word>,
}

// A derived drop is proved again in each crate that may drop a sheet, and this one once.
impl Drop for Names {
    fn drop(self) {
        let Names {
            attrs: _attrs,
            values: _values,
            maps: _maps,
            locs: _locs,
            nums: _nums,
            vars: _vars,
        } = self;
    }
}

/// The locations of one name.
#[derive(Clone, Copy, PartialEq, Eq, Debug)]
pub struct LocName {
    pub name: u16,
    pub kind: LocKind,
    pub class: Class,
}

/// The numbers of one name.
#[derive(Clone, Copy, PartialEq, Eq, Debug)]
pub struct NumName {
    pub name: u16,
    pub class: Class,
}
