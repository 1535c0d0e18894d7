ghost use Rattle.std.specs.Prelude.{◌≡◌, ◌++◌, OnOk};

use crate::digit::Digit;
use std::alloc::AllocError;
use std::marker::Model;

/// The digits of bytes, two a byte. Contracts see the list of them.
#[derive(Drop)]
pub struct Digits {
    items: Vec<Digit>,
}

impl Model for Digits {
    ghost use Rattle.std.specs.Prelude.{List};
    ghost use Rattle.case_text.specs.declared.digit.Digit.{Digit};

    ghost Value = { List Digit };

    ghost view = { λ d. d.items.items };
}

impl Digits {
    /// The digits of a vector, which keeps its memory.
    pub fn from_vec(items: Vec<Digit>) -> Digits
        ensures { result ≡ items.items }
    {
        Digits { items }
    }

    /// Adds digits after the others.
    pub(crate) fn put(&mut self, more: &[Digit]) -> Result<(), AllocError>
        ensures { OnOk result (self.new ≡ self.old ++ more.now) }
    {
        self.items.extend_from_slice(more)
    }

    /// The digits.
    pub fn as_slice(&self) -> &[Digit]
        ensures { result.now ≡ self.now }
    {
        self.items.as_slice()
    }
}
