ghost use Rattle.std.specs.Prelude.{◌≡◌};
ghost use Rattle.lwm2m_payloads.specs.Formats.{format_number, extent_of, extent_with, default_format, served_format};
ghost use Rattle.lwm2m_payloads.specs.Formats.{format_for};

use lwm2m_values::ValueKind;
use object_defs::{Path, ResourceDef};

/// The format of a payload (OMA LwM2M 1.1 Core, data formats).
#[derive(Clone, Copy, PartialEq, Eq)]
pub enum Format {
    /// text/plain, number 0.
    PlainText,
    /// application/octet-stream, number 42.
    OctetStream,
    /// application/vnd.oma.lwm2m+tlv, number 11542.
    Tlv,
}

impl Format {
    /// The number by which Accept and Content-Format name the format.
    pub fn number(self) -> u16
        ensures { result ≡ format_number self }
    {
        match self {
            Format::PlainText => 0,
            Format::OctetStream => 42,
            Format::Tlv => 11542,
        }
    }
}

/// The kind of the one value that a path stands for; none where it stands for more.
fn kind_at(path: Path, definition: Option<ResourceDef>) -> Option<ValueKind>
    ensures { extent_with result ≡ extent_of path definition }
{
    let definition = definition?;
    match path {
        Path::Object(_) | Path::Instance(_, _) => None,
        Path::Resource(_, _, _) => {
            if definition.multiple {
                None
            } else {
                Some(definition.kind)
            }
        }
        Path::Part(_, _, _, _) => Some(definition.kind),
    }
}

/// The format where none is named.
fn default_for(kind: Option<ValueKind>) -> Format
    ensures { result ≡ default_format (extent_with kind) }
{
    match kind {
        None => Format::Tlv,
        Some(ValueKind::Opaque) => Format::OctetStream,
        Some(_) => Format::PlainText,
    }
}

/// The format of this number, where it is served.
fn served(kind: Option<ValueKind>, number: u16) -> Option<Format>
    ensures { result ≡ served_format (extent_with kind) number }
{
    if number == 11542 {
        return Some(Format::Tlv);
    }
    let kind = kind?;
    match number {
        0 => Some(Format::PlainText),
        42 => match kind {
            ValueKind::Opaque => Some(Format::OctetStream),
            _ => None,
        },
        _ => None,
    }
}

/// The format of a Read or a Write: the one that Accept or Content-Format names, where the path serves it, or else the
/// default one (OMA LwM2M 1.1 Core, data formats).
pub fn format_for(
    path: Path,
    definition: Option<ResourceDef>,
    number: Option<u16>,
) -> Option<Format>
    ensures { result ≡ format_for (extent_of path definition) number }
{
    let kind = kind_at(path, definition);
    match number {
        None => Some(default_for(kind)),
        Some(number) => served(kind, number),
    }
}
