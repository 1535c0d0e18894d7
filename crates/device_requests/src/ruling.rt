//! The rule that decides how a request is answered.

ghost use Rattle.std.specs.Prelude.{◌≡◌};
ghost use Rattle.device_requests.specs.Ruling.{code_of, is_of_options};

use crate::answer::Code;

/// The rule that decides how a request is answered: the one that refuses it, or the success where none does. The
/// numbers are those of the rules in docs/device/requests.md.
#[derive(Clone, Copy)]
pub enum Ruling {
    /// 3: a critical option is not recognized.
    Options,
    /// 4: the Uri-Path is not a path.
    NoPath,
    /// 5: the method has no operation at this kind of path.
    Method,
    /// 6: the path names object 0.
    Security,
    /// 7: the target does not exist.
    Target,
    /// 8: the server lacks the right.
    Right,
    /// 9: the target does not have the operation.
    Operation,
    /// 10: the format that the Accept of a Read names is not served there.
    Accept,
    /// 10: the format that Content-Format names is not served there.
    ContentFormat,
    /// 11: the payload, the queries or the arguments are not valid there.
    Payload,
    /// 12: the firmware does not take the Package, the Package URI or the Update now.
    State,
    /// 12: more would be stored, or shown, than may be.
    Limit,
    /// Success of a Create.
    Created,
    /// Success of a Delete.
    Deleted,
    /// Success of a Write, a Write-Attributes or an Execute.
    Changed,
    /// Success of a Read or a Discover.
    Content,
}

impl Ruling {
    /// The code with which it answers.
    pub fn code(self) -> Code
        ensures { result ≡ code_of self }
    {
        match self {
            Ruling::Options => Code::BadOption,
            Ruling::NoPath | Ruling::Target => Code::NotFound,
            Ruling::Method | Ruling::Operation | Ruling::State => Code::MethodNotAllowed,
            Ruling::Security | Ruling::Right => Code::Unauthorized,
            Ruling::Accept => Code::NotAcceptable,
            Ruling::ContentFormat => Code::UnsupportedContentFormat,
            Ruling::Payload => Code::BadRequest,
            Ruling::Limit => Code::InternalServerError,
            Ruling::Created => Code::Created,
            Ruling::Deleted => Code::Deleted,
            Ruling::Changed => Code::Changed,
            Ruling::Content => Code::Content,
        }
    }

    /// Whether it refuses an option: its code is 4.02.
    pub(crate) fn is_of_options(self) -> bool
        ensures { result ≡ is_of_options self }
    {
        matches!(self, Ruling::Options)
    }
}
