//! A Read in its plainest form: a GET that names a path and says nothing else.

ghost use Rattle.std.specs.Prelude.{◌≡◌, ◌≤◌, ◌<◌, ◌+◌, ◌*◌, ◌++◌, ℕ, List, length};
ghost use Rattle.std.specs.Prelude.{◌↔◌, IfSome, IfNone, IsSome, IsTrue, MatchResult};
ghost use Rattle.coap_codec.specs.Message.{Message, Spells, kind_number};
ghost use Rattle.coap_codec.specs.Reading.{reading_of};
ghost use Rattle.device_requests.specs.Inside.{SpellsPath};
ghost use Rattle.device_requests.specs.PlainRead.{IsPlainRead};

use crate::operation::GET;
use crate::options::extended;
use coap_codec::{Kind, front_of};
use object_defs::{Path, decimal_number};

/// What the datagram of a plain Read says.
#[derive(Clone, Copy)]
pub struct PlainRead<'a> {
    /// CON or NON.
    pub kind: Kind,
    /// The message ID.
    pub mid: u16,
    /// The token, of at most 8 bytes.
    pub token: &'a [u8],
    /// What its Uri-Path names.
    pub path: Path,
}

/// The plain Read that a datagram is, exactly if it is one: a CON or a NON with the method GET, whose options are the
/// Uri-Path of a path and nothing else, without a payload. It is found in one pass over the bytes, without a `Message`
/// and without memory.
pub fn plain_read(bytes: &[u8]) -> Option<PlainRead<'_>>
    ensures message { IfSome result
        (λ r. MatchResult (reading_of bytes.now) (λ m. IsPlainRead r.kind r.mid r.token.now r.path m) (λ f. ⊥)) }
    ensures kind { IfSome result (λ r. kind_number r.kind < 2) }
    ensures token { IfSome result (λ r. length r.token.now ≤ 8) }
    ensures found { (m : Message) → Spells bytes.now m → (kind : Kind) (mid : ℕ) (token : List ℕ) (path : Path)
        → kind_number kind < 2 → IsPlainRead kind mid token path m → IsSome result }
{
    let Ok(front) = front_of(bytes) else {
        return None;
    };
    if front.code != GET || !is_request(front.kind) {
        return None;
    }
    let path = plain_path(front.rest)?;
    Some(PlainRead {
        kind: front.kind,
        mid: front.mid,
        token: front.token,
        path,
    })
}

/// Whether a message of this type may be a request: a CON or a NON (RFC 7252 section 4).
fn is_request(kind: Kind) -> bool
    ensures { IsTrue result ↔ (kind_number kind < 2) }
{
    match kind {
        Kind::Con | Kind::Non => true,
        Kind::Ack | Kind::Rst => false,
    }
}

/// The path that bytes name, if they are options of Uri-Path alone.
fn plain_path(bytes: &[u8]) -> Option<Path>
    ensures found { IfSome result (λ path. SpellsPath bytes.now path) }
    ensures none { IfNone result ((path : Path) → SpellsPath bytes.now path → ⊥) }
{
    let mut path: Option<Path> = None;
    // Uri-Path has number 11: that is the delta of the first, and that of each further one is 0.
    let mut delta: u8 = 11;
    let mut rest = bytes;
    while let [first, after @ ..] = rest {
        let (segment, behind) = segment_at(delta, *first, after)?;
        path = Some(extended(path, decimal_number(segment)?)?);
        delta = 0;
        rest = behind;
    }
    path
}

/// The value of the option of this first byte, and what stands after it, if the option has this delta and a value of at
/// most 12 bytes: a longer one is not a number of a path.
fn segment_at(delta: u8, first: u8, bytes: &[u8]) -> Option<(&[u8], &[u8])>
    ensures first { IfSome result (λ x. first ≡ 16 * delta + length x.0.now) }
    ensures parts { IfSome result (λ x. bytes.now ≡ x.0.now ++ x.1.now) }
    ensures short { IfSome result (λ x. length x.0.now ≤ 12) }
    ensures none { IfNone result ((value behind : List ℕ) → length value ≤ 12 → first ≡ 16 * delta + length value
        → bytes.now ≡ value ++ behind → ⊥) }
{
    let length = usize::from(first % 16);
    if first / 16 != delta || length > 12 || bytes.len() < length {
        return None;
    }
    Some(bytes.split_at(length))
}
