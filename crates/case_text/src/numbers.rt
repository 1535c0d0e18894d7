ghost use Rattle.std.specs.Prelude.{◌≡◌};

use std::marker::Model;

/// Numbers of devices. Contracts see the list of them.
#[derive(Drop)]
pub struct DeviceNumbers {
    items: Vec<u16>,
}

impl Model for DeviceNumbers {
    ghost use Rattle.std.specs.Prelude.{List, ℕ};

    ghost Value = { List ℕ };

    ghost view = { λ n. n.items.items };
}

impl DeviceNumbers {
    /// The numbers of a vector, which keeps its memory.
    pub fn from_vec(items: Vec<u16>) -> DeviceNumbers
        ensures { result ≡ items.items }
    {
        DeviceNumbers { items }
    }

    /// The numbers.
    pub fn as_slice(&self) -> &[u16]
        ensures { result.now ≡ self.now }
    {
        self.items.as_slice()
    }
}

/// Numbers of lines. Contracts see the list of them.
#[derive(Drop)]
pub struct LineNumbers {
    items: Vec<usize>,
}

impl Model for LineNumbers {
    ghost use Rattle.std.specs.Prelude.{List, ℕ};

    ghost Value = { List ℕ };

    ghost view = { λ n. n.items.items };
}

impl LineNumbers {
    /// The numbers of a vector, which keeps its memory.
    pub fn from_vec(items: Vec<usize>) -> LineNumbers
        ensures { result ≡ items.items }
    {
        LineNumbers { items }
    }

    /// The numbers.
    pub fn as_slice(&self) -> &[usize]
        ensures { result.now ≡ self.now }
    {
        self.items.as_slice()
    }
}
