ghost use Rattle.std.specs.Prelude.{◌≡◌, [], None, Some};
ghost use Rattle.device_requests.specs.Answer.{bare, code_byte, content, created_answer, done_answer, is_change};
ghost use Rattle.device_requests.specs.Answer.{is_content};
ghost use Rattle.device_requests.specs.Ruling.{code_of};

use crate::ruling::Ruling;
use object_defs::InstancePath;
use octets::Bytes;
use std::alloc::Global;

/// A response code that a device answers (OMA LwM2M 1.1 Transport, RFC 7252 section 12.1.2).
#[derive(Clone, Copy)]
pub enum Code {
    /// 2.01
    Created,
    /// 2.02
    Deleted,
    /// 2.04
    Changed,
    /// 2.05
    Content,
    /// 4.00
    BadRequest,
    /// 4.01
    Unauthorized,
    /// 4.02
    BadOption,
    /// 4.04
    NotFound,
    /// 4.05
    MethodNotAllowed,
    /// 4.06
    NotAcceptable,
    /// 4.15
    UnsupportedContentFormat,
    /// 5.00
    InternalServerError,
}

impl Code {
    /// The code as a byte: class in the three high bits, detail in the five low ones.
    pub fn byte(self) -> u8
        ensures { result ≡ code_byte self }
    {
        match self {
            Code::Created => 0x41,
            Code::Deleted => 0x42,
            Code::Changed => 0x44,
            Code::Content => 0x45,
            Code::BadRequest => 0x80,
            Code::Unauthorized => 0x81,
            Code::BadOption => 0x82,
            Code::NotFound => 0x84,
            Code::MethodNotAllowed => 0x85,
            Code::NotAcceptable => 0x86,
            Code::UnsupportedContentFormat => 0x8F,
            Code::InternalServerError => 0xA0,
        }
    }

    /// Whether it reports a change: 2.01, 2.02 or 2.04 (RFC 7252 section 5.9.1).
    pub fn is_change(self) -> bool
        ensures { result ≡ is_change self }
    {
        match self {
            Code::Created | Code::Deleted | Code::Changed => true,
            Code::Content
            | Code::BadRequest
            | Code::Unauthorized
            | Code::BadOption
            | Code::NotFound
            | Code::MethodNotAllowed
            | Code::NotAcceptable
            | Code::UnsupportedContentFormat
            | Code::InternalServerError => false,
        }
    }
}

/// What a device does beside sending.
#[derive(Clone, Copy, Debug, PartialEq, Eq)]
pub enum Act {
    /// It reboots.
    Reboot,
    /// It returns to its factory settings.
    FactoryReset,
    /// It updates its registration.
    RegUpdate,
    /// It stops its exchange with the server for a time.
    Disable,
    /// A value or an event did not fit: nothing changed.
    Missed,
}

/// The answer to a request: the rule that decided it, Location-Path, Content-Format and payload, and what the device
/// does then.
#[derive(Clone, Drop)]
pub struct Answer {
    /// The rule that decided it, with its code.
    pub ruling: Ruling,
    /// The instance that was created, or none.
    pub location: Option<InstancePath>,
    /// The number of the payload's format, or none where there is no payload.
    pub format: Option<u16>,
    /// The payload.
    pub payload: Bytes,
    /// What the device does after the reply, or none.
    pub act: Option<Act>,
}

impl Answer {
    /// The code.
    pub fn code(&self) -> Code
        ensures { result ≡ code_of self.now.ruling }
    {
        self.ruling.code()
    }

    /// Whether the answer is the content of its target: its code is 2.05.
    pub fn is_content(&self) -> bool
        ensures { result ≡ is_content self.now }
    {
        matches!(self.ruling, Ruling::Content)
    }

    /// A code alone, with neither option nor payload.
    pub(crate) fn bare(alloc: Global, ruling: Ruling) -> Answer
        ensures { result ≡ bare ruling }
    {
        Answer {
            ruling,
            location: None,
            format: None,
            payload: Bytes::new(alloc),
            act: None,
        }
    }

    /// Content of the format of this number.
    pub(crate) fn content(format: u16, payload: Bytes) -> Answer
        ensures { result ≡ content format payload }
    {
        Answer {
            ruling: Ruling::Content,
            location: None,
            format: Some(format),
            payload,
            act: None,
        }
    }

    /// Changed, after which the device may act.
    pub(crate) fn done(alloc: Global, act: Option<Act>) -> Answer
        ensures { result ≡ done_answer act }
    {
        Answer {
            ruling: Ruling::Changed,
            location: None,
            format: None,
            payload: Bytes::new(alloc),
            act,
        }
    }

    /// Created, with the place of the new instance.
    pub(crate) fn created(alloc: Global, place: InstancePath) -> Answer
        ensures { result ≡ created_answer place }
    {
        Answer {
            ruling: Ruling::Created,
            location: Some(place),
            format: None,
            payload: Bytes::new(alloc),
            act: None,
        }
    }
}
