//! Where what is printed goes.
ghost use Rattle.std.specs.Prelude.{◌≡◌, ◌∷◌, ◌++◌, [], OnOk, IfOk, pos};
ghost use Rattle.rc_base.specs.Tree.{printed};
ghost use Rattle.rc_sheet_spec.specs.Printing.{number_form};

use std::alloc::{AllocError, Global};

/// The bytes that are printed so far.
#[derive(Drop)]
pub struct Printer {
    pub alloc: Global,
    pub bytes: Vec<u8>,
}

impl Printer {
    /// Adds bytes.
    pub fn add(&mut self, bytes: &[u8]) -> Result<(), AllocError>
        ensures { OnOk result (self.new.bytes.items ≡ self.old.bytes.items ++ bytes.now) }
    {
        self.bytes.extend_from_slice(bytes)
    }

    /// Adds a text that is always the same.
    pub fn keyword(&mut self, text: &str) -> Result<(), AllocError>
        ensures { OnOk result (self.new.bytes.items ≡ self.old.bytes.items ++ text.now) }
    {
        self.bytes.extend_from_slice(text.as_bytes())
    }

    /// Opens a list that begins with an atom.
    pub fn open(&mut self, head: &str) -> Result<(), AllocError>
        ensures { OnOk result (self.new.bytes.items ≡ self.old.bytes.items ++ 40 ∷ head.now) }
    {
        self.bytes.push(b'(')?;
        self.bytes.extend_from_slice(head.as_bytes())
    }

    /// Opens a list that begins with an atom, with a space before it.
    pub fn open_part(&mut self, head: &str) -> Result<(), AllocError>
        ensures { OnOk result (self.new.bytes.items ≡ self.old.bytes.items ++ 32 ∷ 40 ∷ head.now) }
    {
        self.keyword(" (")?;
        self.keyword(head)
    }

    /// Opens a list.
    pub fn begin(&mut self) -> Result<(), AllocError>
        ensures { OnOk result (self.new.bytes.items ≡ self.old.bytes.items ++ 40 ∷ []) }
    {
        self.bytes.push(b'(')?;
        Ok(())
    }

    /// Closes a list.
    pub fn close(&mut self) -> Result<(), AllocError>
        ensures { OnOk result (self.new.bytes.items ≡ self.old.bytes.items ++ 41 ∷ []) }
    {
        self.bytes.push(b')')?;
        Ok(())
    }

    /// Parts the next part from the one before it.
    pub fn space(&mut self) -> Result<(), AllocError>
        ensures { OnOk result (self.new.bytes.items ≡ self.old.bytes.items ++ 32 ∷ []) }
    {
        self.bytes.push(b' ')?;
        Ok(())
    }

    /// Adds a number in decimal digits.
    pub fn number(&mut self, value: i64) -> Result<(), AllocError>
        ensures { OnOk result (self.new.bytes.items ≡ self.old.bytes.items ++ printed (number_form value)) }
    {
        let mut digits = itoa::Buffer::new();
        self.bytes
            .extend_from_slice(digits.format(value).as_bytes())
    }
}
