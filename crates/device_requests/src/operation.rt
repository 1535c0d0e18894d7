//! The operation that a request asks for, by its method and the kind of its path.

ghost use Rattle.std.specs.Prelude.{◌≡◌};
ghost use Rattle.device_requests.specs.Operation.{asks_for_links, operation_of, put};

use object_defs::Path;

pub(crate) const GET: u8 = 1;

const POST: u8 = 2;

const PUT: u8 = 3;

const DELETE: u8 = 4;

/// application/link-format (RFC 6690).
pub(crate) const LINK_FORMAT: u16 = 40;

/// The operations of the Device Management interface (OMA LwM2M 1.1 Core).
#[derive(Clone, Copy)]
pub enum Operation {
    Read,
    Discover,
    WriteAttributes,
    WriteReplace,
    WritePartial,
    Create,
    Execute,
    Delete,
}

/// Whether Accept asks for application/link-format.
fn asks_for_links(accept: Option<u16>) -> bool
    ensures { result ≡ asks_for_links accept }
{
    match accept {
        None => false,
        Some(format) => format == LINK_FORMAT,
    }
}

/// The operation that a request asks for.
pub(crate) fn select(
    method: u8,
    accept: Option<u16>,
    has_query: bool,
    path: Path,
) -> Option<Operation>
    ensures { result ≡ operation_of method accept has_query path }
{
    match method {
        GET => match path {
            Path::Part(_, _, _, _) => {
                if asks_for_links(accept) {
                    None
                } else {
                    Some(Operation::Read)
                }
            }
            Path::Object(_) | Path::Instance(_, _) | Path::Resource(_, _, _) => {
                if asks_for_links(accept) {
                    Some(Operation::Discover)
                } else {
                    Some(Operation::Read)
                }
            }
        },
        POST => match path {
            Path::Object(_) => Some(Operation::Create),
            Path::Instance(_, _) => Some(Operation::WritePartial),
            Path::Resource(_, _, _) => Some(Operation::Execute),
            Path::Part(_, _, _, _) => None,
        },
        PUT => select_write(has_query, path),
        DELETE => match path {
            Path::Instance(_, _) => Some(Operation::Delete),
            Path::Object(_) | Path::Resource(_, _, _) | Path::Part(_, _, _, _) => None,
        },
        _ => None,
    }
}

/// The operation of a PUT.
fn select_write(has_query: bool, path: Path) -> Option<Operation>
    ensures { result ≡ operation_of put None has_query path }
{
    match path {
        Path::Object(_) => {
            if has_query {
                Some(Operation::WriteAttributes)
            } else {
                None
            }
        }
        Path::Instance(_, _) | Path::Resource(_, _, _) => {
            if has_query {
                Some(Operation::WriteAttributes)
            } else {
                Some(Operation::WriteReplace)
            }
        }
        Path::Part(_, _, _, _) => {
            if has_query {
                None
            } else {
                Some(Operation::WriteReplace)
            }
        }
    }
}
