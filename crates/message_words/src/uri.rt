//! Segments of paths, and queries, as a URI has them.
ghost use Rattle.std.specs.Prelude.{◌≡◌, ◌++◌, OnOk};
ghost use Rattle.std.specs.String.{string_bytes};
ghost use Rattle.message_words.specs.Options.{is_unescaped, uri_byte, uri_text};

use scenario_words::hex_word;
use std::alloc::{AllocError, Global};

/// Whether a byte is itself both in a path and in a query (RFC 7252 section 6.5).
fn is_unescaped(byte: u8) -> bool
    ensures { result ≡ is_unescaped byte }
{
    (b'A' <= byte && byte <= b'Z')
        || (b'a' <= byte && byte <= b'z')
        || (b'0' <= byte && byte <= b'9')
        || b"-._~!$'()*+,;=:@".as_slice().contains(&byte)
}

/// Writes a byte: itself, or `%` and two hex digits.
fn put_uri_byte(alloc: Global, out: &mut String, byte: u8) -> Result<(), AllocError>
    ensures { OnOk result (string_bytes out.new ≡ string_bytes out.old ++ uri_byte byte) }
{
    if is_unescaped(byte) {
        return out.push(char::from(byte));
    }
    let digits = hex_word(alloc, &[byte])?;
    out.push('%')?;
    out.push_str(digits.as_str())
}

/// Writes a segment of a path, or a query.
pub(crate) fn put_uri_text(alloc: Global, out: &mut String, value: &[u8]) -> Result<(), AllocError>
    ensures { OnOk result (string_bytes out.new ≡ string_bytes out.old ++ uri_text value.now) }
{
    for byte in value {
        put_uri_byte(alloc, out, *byte)?;
    }
    Ok(())
}
