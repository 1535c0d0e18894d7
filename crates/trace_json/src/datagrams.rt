//! Datagrams, as the objects of steps and of outputs have them.

ghost use Rattle.std.specs.Prelude.{◌≡◌, ◌++◌, ◌∷◌, codes, OnOk};
ghost use Rattle.json.specs.Token.{begin_object};
ghost use Rattle.serde_json.specs.Data.{string};
ghost use Rattle.trace_json.specs.Steps.{datagram_fields, kind_json};
ghost use Rattle.trace_json.specs.Writing.{Has64Bits, fields_tokens, tokens_of};

use crate::members::{put_hex, put_number, put_string};
use json::Writer;
use message_words::datagram_text;
use std::alloc::{AllocError, Global};

/// Begins the object of a datagram, which is of this kind: with its server, its bytes and what it says.
pub(crate) fn begin_datagram(
    alloc: Global,
    out: &mut Writer,
    kind: &str,
    server: u16,
    bytes: &[u8],
) -> Result<(), AllocError>
    ensures adds { OnOk result (out.new.tokens ≡ out.old.tokens ++ begin_object
        ∷ fields_tokens ((codes "kind", string kind.now) ∷ datagram_fields server bytes.now)) }
    ensures before { out.new.before ≡ out.old.before }
    ensures exact { Has64Bits (kind_json kind.now (datagram_fields server bytes.now)) }
{
    let words = datagram_text(alloc, bytes)?;
    out.begin_object()?;
    put_string(out, "kind", kind)?;
    put_number(out, "server", server as u64)?;
    put_hex(alloc, out, "datagram", bytes)?;
    put_string(out, "words", words.as_str())?;
    Ok(())
}

/// Writes the object of a datagram.
pub(crate) fn put_datagram(
    alloc: Global,
    out: &mut Writer,
    kind: &str,
    server: u16,
    bytes: &[u8],
) -> Result<(), AllocError>
    ensures adds { OnOk result
        (out.new.tokens ≡ out.old.tokens ++ tokens_of (kind_json kind.now (datagram_fields server bytes.now))) }
    ensures before { out.new.before ≡ out.old.before }
    ensures exact { Has64Bits (kind_json kind.now (datagram_fields server bytes.now)) }
{
    begin_datagram(alloc, out, kind, server, bytes)?;
    out.end_object()?;
    Ok(())
}
