//! What a request asks of an observation (RFC 7641 section 2).

ghost use Rattle.std.specs.Prelude.{◌≡◌};
ghost use Rattle.device_requests.specs.Observe.{interest_at, interest_in, is_read};

use crate::operation::Operation;
use crate::request::Request;
use object_defs::Path;

/// What a Read asks of the observation of its server and token.
#[derive(Clone, Copy)]
pub enum Interest {
    /// To be registered: Observe 0.
    Register {
        /// What is observed.
        path: Path,
        /// The Content-Format that the request accepts, if it names one.
        accept: Option<u16>,
    },
    /// To be removed: Observe 1.
    Cancel,
}

/// Whether an operation is a Read.
fn is_read(operation: Operation) -> bool
    ensures { result ≡ is_read operation }
{
    match operation {
        Operation::Read => true,
        Operation::Discover
        | Operation::WriteAttributes
        | Operation::WriteReplace
        | Operation::WritePartial
        | Operation::Create
        | Operation::Execute
        | Operation::Delete => false,
    }
}

/// The interest of a Read with this Observe.
fn interest_in(observe: Option<u32>, path: Path, accept: Option<u16>) -> Option<Interest>
    ensures { result ≡ interest_in observe path accept }
{
    match observe {
        None => None,
        Some(number) => {
            if number == 0 {
                return Some(Interest::Register { path, accept });
            }
            if number == 1 {
                return Some(Interest::Cancel);
            }
            None
        }
    }
}

/// What a request asks of the observation of its server and token: something where it is a Read, and
/// its first Observe is 0 or 1.
pub(crate) fn interest_at(request: Request) -> Option<Interest>
    ensures { result ≡ interest_at request }
{
    if is_read(request.operation) {
        return interest_in(request.observe, request.path, request.accept);
    }
    None
}
