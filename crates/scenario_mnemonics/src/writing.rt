//! The words of a mnemonic, as they are written.

ghost use Rattle.std.specs.Prelude.{◌≡◌, ◌∷◌, ◌++◌, [], true, IfOk, OnOk};
ghost use Rattle.std.specs.List.{join_with_byte, list_all};
ghost use Rattle.std.specs.Char.{is_ascii_graphic};
ghost use Rattle.scenario_mnemonics.specs.Queries.{is_query};
ghost use Rattle.std.specs.Fmt.{decimal};
ghost use Rattle.std.specs.String.{string_bytes};
ghost use Rattle.scenario_words.specs.HexWord.{hex_word};
ghost use Rattle.object_defs.specs.Path.{path_text};
ghost use Rattle.scenario_mnemonics.specs.MnemonicWords.{type_word, format_word, details, behind_keyword};
ghost use Rattle.scenario_mnemonics.specs.MnemonicWords.{words_of_mnemonic, spaced_words};

use crate::action::Action;
use crate::format::Format;
use crate::mnemonic::{Mnemonic, Request};
use crate::request_type::RequestType;
use itoa::Buffer;
use object_defs::Path;
use octets::Bytes;
use scenario_words::hex_word;
use std::alloc::{AllocError, Global};

fn type_word(kind: RequestType) -> &'static str
    ensures { result.now ≡ type_word kind }
{
    match kind {
        RequestType::Con => "con",
        RequestType::Non => "non",
    }
}

fn format_word(format: Format) -> &'static str
    ensures { result.now ≡ format_word format }
{
    match format {
        Format::Any => "any",
        Format::Text => "text",
        Format::Opaque => "opaque",
        Format::Tlv => "tlv",
    }
}

/// Writes a space and a word.
fn put_word(out: &mut String, word: &str) -> Result<(), AllocError>
    ensures { OnOk result (string_bytes out.new ≡ string_bytes out.old ++ spaced_words (word.now ∷ [])) }
{
    out.push(' ')?;
    out.push_str(word)
}

fn put_number(out: &mut String, number: u16) -> Result<(), AllocError>
    ensures { OnOk result (string_bytes out.new ≡ string_bytes out.old ++ spaced_words (decimal number ∷ [])) }
{
    let mut digits = Buffer::new();
    put_word(out, digits.format(number))
}

fn put_hex(alloc: Global, out: &mut String, bytes: &Bytes) -> Result<(), AllocError>
    ensures { OnOk result (string_bytes out.new ≡ string_bytes out.old ++ spaced_words (hex_word bytes.now ∷ [])) }
{
    if bytes.is_empty() {
        return put_word(out, "-");
    }
    let word = hex_word(alloc, bytes.as_slice())?;
    put_word(out, word.as_str())
}

/// Writes a slash and a number of a path.
fn put_segment(out: &mut String, number: u16) -> Result<(), AllocError>
    ensures { OnOk result (string_bytes out.new ≡ string_bytes out.old ++ 47 ∷ decimal number) }
{
    let mut digits = Buffer::new();
    out.push('/')?;
    out.push_str(digits.format(number))
}

fn put_path(out: &mut String, path: Path) -> Result<(), AllocError>
    ensures { OnOk result (string_bytes out.new ≡ string_bytes out.old ++ spaced_words (path_text path ∷ [])) }
{
    out.push(' ')?;
    match path {
        Path::Object(object) => put_segment(out, object),
        Path::Instance(object, instance) => {
            put_segment(out, object)?;
            put_segment(out, instance)
        }
        Path::Resource(object, instance, resource) => {
            put_segment(out, object)?;
            put_segment(out, instance)?;
            put_segment(out, resource)
        }
        Path::Part(object, instance, resource, part) => {
            put_segment(out, object)?;
            put_segment(out, instance)?;
            put_segment(out, resource)?;
            put_segment(out, part)
        }
    }
}

/// Writes a space and a query's bytes, which are ASCII.
fn put_query(out: &mut String, query: &[u8]) -> Result<(), AllocError>
    requires { list_all is_ascii_graphic query.now ≡ true }
    ensures { OnOk result (string_bytes out.new ≡ string_bytes out.old ++ spaced_words (query.now ∷ [])) }
{
    out.push(' ')?;
    for byte in query {
        out.push(char::from(*byte))?;
    }
    Ok(())
}

fn put_queries(out: &mut String, queries: &[Bytes]) -> Result<(), AllocError>
    requires { list_all is_query queries.now ≡ true }
    ensures { OnOk result (string_bytes out.new ≡ string_bytes out.old ++ spaced_words queries.now) }
{
    for query in queries {
        put_query(out, query.as_slice())?;
    }
    Ok(())
}

/// Writes the words after the path.
fn put_details(alloc: Global, out: &mut String, action: &Action) -> Result<(), AllocError>
    ensures { OnOk result (string_bytes out.new ≡ string_bytes out.old ++ spaced_words (details action.now)) }
{
    match action {
        Action::Read(format) | Action::Observe(format) | Action::Cancel(format) => {
            put_word(out, format_word(*format))
        }
        Action::Discover | Action::Delete => Ok(()),
        Action::Write(format, payload)
        | Action::Update(format, payload)
        | Action::Create(format, payload) => {
            put_word(out, format_word(*format))?;
            put_hex(alloc, out, payload)
        }
        Action::Attr(queries) => put_queries(out, queries.as_slice()),
        Action::Exec(payload) => put_hex(alloc, out, payload),
    }
}

/// Writes the words between the server and the details.
fn put_request(alloc: Global, out: &mut String, request: &Request) -> Result<(), AllocError>
    ensures { OnOk result (string_bytes out.new ≡ string_bytes out.old
        ++ spaced_words (type_word request.now.kind ∷ decimal request.now.mid ∷ hex_word request.now.token ∷ path_text
        request.now.path ∷ details request.now.action)) }
{
    put_word(out, type_word(request.kind))?;
    put_number(out, request.mid)?;
    put_hex(alloc, out, request.token.bytes())?;
    put_path(out, request.path)?;
    put_details(alloc, out, &request.action)
}

/// Writes the words after the keyword.
fn put_words(
    alloc: Global,
    out: &mut String,
    server: u16,
    mnemonic: &Mnemonic,
) -> Result<(), AllocError>
    ensures { OnOk result (string_bytes out.new ≡ string_bytes out.old
        ++ spaced_words (behind_keyword server mnemonic.now)) }
{
    put_number(out, server)?;
    match mnemonic {
        Mnemonic::Request(request) => put_request(alloc, out, request),
        Mnemonic::Reset(mid) => put_number(out, *mid),
    }
}

/// How many bytes most mnemonics take at most.
const USUAL_LEN: usize = 48;

/// A mnemonic that a server sends, as scenario text has it: its words with a space between each two. Bytes are in
/// upper-case hex, `-` for none, and queries stand in their order.
#[tactic(auto, using(crate::proofs::Spelling::joined))]
pub fn spell(alloc: Global, server: u16, mnemonic: &Mnemonic) -> Result<String, AllocError>
    ensures { IfOk result (λ s. string_bytes s ≡ join_with_byte 32 (words_of_mnemonic server mnemonic.now)) }
{
    let mut out = String::with_capacity(alloc, USUAL_LEN)?;
    out.push_str(mnemonic.keyword().word())?;
    put_words(alloc, &mut out, server, mnemonic)?;
    Ok(out)
}
