//! Rule 10: the format that a request names, and those that are served there.

ghost use Rattle.std.specs.Prelude.{◌≡◌, true, not, Ok, Some};
ghost use Rattle.std.specs.Option.{is_some};
ghost use Rattle.coap_codec.specs.Message.{Message as MessageData};
ghost use Rattle.lwm2m_payloads.specs.Formats.{extent_of, format_for, format_number};
ghost use Rattle.lwm2m_payloads.specs.declared.format.Format.{Format as FormatData};
ghost use Rattle.device_requests.specs.Refusals.{lacks_format};
ghost use Rattle.device_requests.specs.Request.{purpose_of, request_of};
ghost use Rattle.request_reasons.specs.Formats.{IsUnserved, format_named, is_served, with_format};

use coap_codec::Message;
use device_requests::{Operation, Request, definition_at};
use lwm2m_payloads::{Format, format_for};
use object_defs::{Catalog, Path, ResourceDef};

/// The formats that are served at a path, for an operation.
#[derive(Clone, Copy)]
pub enum Served {
    /// TLV: several values, and the values of a new instance.
    TlvAlone,
    /// Plain text: arguments.
    PlainTextAlone,
    /// Plain text and TLV: one value that is not an Opaque.
    PlainTextAndTlv,
    /// Plain text, octet-stream and TLV: one Opaque.
    All,
}

/// Whether a path serves a format.
fn serves(path: Path, definition: Option<ResourceDef>, format: Format) -> bool
    ensures { result ≡ is_some (format_for (extent_of path definition) (Some (format_number format))) }
{
    format_for(path, definition, Some(format.number())).is_some()
}

/// The formats of the values at a path.
fn formats_at(path: Path, definition: Option<ResourceDef>) -> Served
    ensures { (f : FormatData) → is_served result f
        ≡ is_some (format_for (extent_of path definition) (Some (format_number f))) }
{
    if serves(path, definition, Format::OctetStream) {
        return Served::All;
    }
    if serves(path, definition, Format::PlainText) {
        return Served::PlainTextAndTlv;
    }
    Served::TlvAlone
}

/// The formats that an operation can name at a path without being refused for it.
fn served_for(catalog: &Catalog, path: Path, operation: Operation) -> Served
    ensures { (m : MessageData) (f : FormatData)
        → lacks_format catalog.now path (with_format (format_number f) (purpose_of m operation))
        ≡ not (is_served result f) }
{
    match operation {
        Operation::Read | Operation::WriteReplace | Operation::WritePartial => {
            formats_at(path, definition_at(catalog, path))
        }
        Operation::Create => Served::TlvAlone,
        Operation::Execute => Served::PlainTextAlone,
        Operation::Discover | Operation::WriteAttributes | Operation::Delete => Served::All,
    }
}

/// The number of the format that a request names. The message is for the contract alone.
fn format_named(_message: &Message, request: Request) -> Option<u16>
    requires { request_of _message.now ≡ Ok request }
    ensures { result ≡ format_named (purpose_of _message.now request.operation) }
{
    match request.operation {
        Operation::Read => request.accept,
        Operation::WriteReplace
        | Operation::WritePartial
        | Operation::Create
        | Operation::Execute => request.content_format,
        Operation::Discover | Operation::WriteAttributes | Operation::Delete => None,
    }
}

/// The number of a format that is not served, and the formats that are.
pub(crate) fn unserved(catalog: &Catalog, message: &Message, request: Request) -> (u16, Served)
    requires read { request_of message.now ≡ Ok request }
    requires unserved { lacks_format catalog.now request.path (purpose_of message.now request.operation) ≡ true }
    ensures { IsUnserved catalog.now request.path (purpose_of message.now request.operation) result.0 result.1 }
{
    match format_named(message, request) {
        Some(number) => (number, served_for(catalog, request.path, request.operation)),
        None => unreachable!(),
    }
}
