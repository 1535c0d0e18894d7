ghost use Rattle.std.specs.Prelude.{◌≡◌, if◌then◌else◌, Some, None, true};
ghost use Rattle.std.specs.List.{list_all};
ghost use Rattle.std.specs.Char.{is_ascii_graphic};
ghost use Rattle.scenario_mnemonics.specs.Queries.{is_query, are_queries};

use octets::Bytes;
use std::marker::Model;

/// The queries of a request that writes attributes: at least one, each of 1 to 255 bytes from 21 to 7E, of which
/// the first is neither `#` nor `"`.
///
/// Contracts see the list of the queries, each a list of bytes.
#[derive(Drop)]
pub struct Queries {
    items: Vec<Bytes>,
}

impl Model for Queries {
    ghost use Rattle.std.specs.Prelude.{◌≡◌, List, ℕ, true};
    ghost use Rattle.scenario_mnemonics.specs.Queries.{are_queries};

    ghost Value = { List (List ℕ) };

    ghost view = { λ q. q.items.items };

    ghost invariant = { λ q. are_queries q.items.items ≡ true };
}

impl Queries {
    /// These queries, where there is one and each is well formed.
    pub fn new(items: Vec<Bytes>) -> Option<Queries>
        ensures { result ≡ (if are_queries items.items then Some items.items else None) }
    {
        if items.is_empty() || !are_queries(items.as_slice()) {
            return None;
        }
        Some(Queries { items })
    }

    /// The queries; they are well formed.
    pub fn as_slice(&self) -> &[Bytes]
        ensures queries { result.now ≡ self.now }
        ensures formed { are_queries self.now ≡ true }
    {
        self.items.as_slice()
    }
}

fn are_graphic(bytes: &[u8]) -> bool
    ensures { result ≡ list_all is_ascii_graphic bytes.now }
{
    bytes.iter().all(|b| b.is_ascii_graphic())
}

/// Whether bytes can be a query's word.
fn is_query(query: &[u8]) -> bool
    ensures { result ≡ is_query query.now }
{
    match query {
        [] => false,
        [first, ..] => {
            *first != b'#' && *first != b'"' && query.len() <= 255 && are_graphic(query)
        }
    }
}

fn are_queries(queries: &[Bytes]) -> bool
    ensures { result ≡ list_all is_query queries.now }
{
    queries.iter().all(|q| is_query(q.as_slice()))
}
