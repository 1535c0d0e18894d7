ghost use Rattle.std.specs.Prelude.{◌≡◌, ◌≤◌, ◌==◌, ◌↔◌, List, [], length, IfOk, IsOk, IsTrue};

use smallvec::SmallVec;
use std::alloc::{AllocError, Global};
use std::marker::Model;

/// Bytes that are owned: a token, an option's value, a payload, a datagram. Up to 16 bytes lie in the value itself.
///
/// Contracts see the list of the bytes, and nothing of the memory that holds them.
#[derive(Debug)]
pub struct Bytes {
    items: SmallVec<u8, 16>,
}

impl Model for Bytes {
    ghost use Rattle.std.specs.Prelude.{List, ℕ};

    ghost Value = { List ℕ };

    ghost view = { λ b. b.items.items };
}

impl Bytes {
    /// No bytes.
    pub fn new(alloc: Global) -> Bytes
        ensures { result ≡ [] }
    {
        Bytes {
            items: SmallVec::new(alloc),
        }
    }

    /// A copy of these bytes. Up to 16 take no memory, in a clone neither; where the bytes lie is not said.
    pub fn from_slice(alloc: Global, bytes: &[u8]) -> Result<Bytes, AllocError>
        ensures copy { IfOk result (λ b. b ≡ bytes.now) }
        ensures short { length bytes.now ≤ 16 → IsOk result }
    {
        if bytes.is_empty() {
            return Ok(Bytes::new(alloc));
        }
        Ok(Bytes {
            items: SmallVec::from_slice(alloc, bytes)?,
        })
    }

    /// The bytes of a vector, which keeps its memory if that has room for more than 16.
    pub fn from_vec(items: Vec<u8>) -> Bytes
        ensures { result ≡ items.items }
    {
        Bytes {
            items: SmallVec::from_vec(items),
        }
    }

    /// The bytes.
    pub fn as_slice(&self) -> &[u8]
        ensures { result.now ≡ self.now }
    {
        self.items.as_slice()
    }

    /// How many bytes there are.
    pub fn len(&self) -> usize
        ensures { result ≡ length self.now }
    {
        self.items.len()
    }

    /// Whether there is no byte.
    pub fn is_empty(&self) -> bool
        ensures { IsTrue result ↔ (length self.now ≡ 0) }
    {
        self.items.len() == 0
    }
}

/// By hand, so that a caller's proof has one step where a `Bytes` is dropped, and no case for each place of the bytes.
impl Drop for Bytes {
    fn drop(self) {
        let Bytes { items: _items } = self;
    }
}

/// A copy of up to 16 bytes takes no memory.
impl Clone for Bytes {
    ghost use Rattle.std.specs.Prelude.{◌≡◌, ◌≤◌, length};

    ghost is_clone = { λ bytes copy. copy ≡ bytes };

    ghost is_infallible = { λ bytes. length bytes ≤ 16 };

    fn clone(&self) -> Result<Bytes, AllocError> {
        Bytes::from_slice(*self.items.allocator(), self.as_slice())
    }
}

impl PartialEq for Bytes {
    ghost use Rattle.std.specs.Prelude.{◌==◌};
    ghost use Rattle.std.specs.Cmp.{partial_equiv_from_equiv};
    ghost use Rattle.std.specs.Cmp.Lexicographic.{pointwise, nat_list_eq_equiv};

    ghost eq = { pointwise ◌==◌ };

    ghost laws = { partial_equiv_from_equiv nat_list_eq_equiv };

    fn eq(&self, other: &Bytes) -> bool {
        self.as_slice() == other.as_slice()
    }
}

impl Eq for Bytes {
    ghost use Rattle.std.specs.Cmp.Lexicographic.{nat_list_eq_equiv};

    ghost laws = { nat_list_eq_equiv };
}
