//! What a request asks for, read once from its options, and what it answers and changes.

ghost use Rattle.std.specs.Prelude.{◌≡◌, true, false, IfErr, IfOk, IsOk, OnErr, OnOk};
ghost use Rattle.device_requests.specs.Answer.{Leaves};
ghost use Rattle.device_requests.specs.Observe.{interest_of};
ghost use Rattle.device_requests.specs.Options.{has_unrecognized_critical};
ghost use Rattle.device_requests.specs.Refusals.{lacks_operation};
ghost use Rattle.device_requests.specs.Request.{outcome_at, outcome_of, purpose_of, request_of};
ghost use Rattle.device_requests.specs.Ruling.{is_of_options, takes_memory};

use crate::answer::Answer;
use crate::client::Client;
use crate::observe::{Interest, interest_at};
use crate::operation::{Operation, select};
use crate::options::{path_of, request_options};
use crate::ruling::Ruling;
use coap_codec::Message;
use lwm2m_payloads::Mode;
use object_defs::Path;
use std::alloc::AllocError;

/// What a request asks for, as its options say it. The queries stay in its message: only a
/// Write-Attributes reads them.
#[derive(Clone, Copy)]
pub struct Request {
    /// What its Uri-Path names.
    pub path: Path,
    /// What its method asks for there.
    pub operation: Operation,
    /// The number of the format that its first Accept names, if it has one.
    pub accept: Option<u16>,
    /// The number of the format that its first Content-Format names; one of a wrong length counts as
    /// none.
    pub content_format: Option<u16>,
    /// The number of its first Observe; one of a wrong length counts as none.
    pub observe: Option<u32>,
}

impl Request {
    /// What a message asks for, or the rule that refuses it: `Options` where an option that must be
    /// understood is not, `NoPath` where its Uri-Path is not a path, `Method` where its method is not an
    /// operation there, in this order.
    pub fn read(message: &Message) -> Result<Request, Ruling>
        ensures request { result ≡ request_of message.now }
        ensures understood { OnOk result (has_unrecognized_critical message.now.options ≡ false) }
        ensures rejected { IfErr result
            (λ ruling. is_of_options ruling ≡ has_unrecognized_critical message.now.options) }
    {
        let options = message.options().as_slice();
        let Some(found) = request_options(options) else {
            return Err(Ruling::Options);
        };
        let Some(path) = path_of(options) else {
            return Err(Ruling::NoPath);
        };
        let Some(operation) = select(message.code(), found.accept, found.has_query, path) else {
            return Err(Ruling::Method);
        };
        Ok(Request {
            path,
            operation,
            accept: found.accept,
            content_format: found.content_format,
            observe: found.observe,
        })
    }
}

/// What a request is answered, and what it asks of the observation of its server and token.
#[derive(Drop)]
pub struct RequestResult {
    /// The answer.
    pub answer: Answer,
    /// What it asks of the observation, if it asks something.
    pub interest: Option<Interest>,
    /// Whether an option that must be understood is not, for which a NON is rejected (RFC 7252
    /// section 5.4.1).
    pub is_rejected: bool,
}

impl Client {
    /// Does what a request asks for.
    fn perform(
        &mut self,
        server: u16,
        message: &Message,
        request: Request,
    ) -> Result<Answer, AllocError>
        ensures outcome { IfOk result (λ a. Leaves a self.new (outcome_at self.old server message.now request)) }
        ensures may_lack_memory { OnErr result
            (takes_memory (outcome_at self.old server message.now request).answer.ruling ≡ true) }
        ensures has { OnErr result
            (lacks_operation self.old.catalog request.path (purpose_of message.now request.operation) ≡ false) }
    {
        let path = request.path;
        let number = request.content_format;
        let payload = message.payload().as_slice();
        match request.operation {
            Operation::Read => self.read(server, path, request.accept),
            Operation::Discover => self.discover(server, path),
            Operation::WriteReplace => self.write(server, Mode::Replace, path, number, payload),
            Operation::WritePartial => self.write(server, Mode::Update, path, number, payload),
            Operation::Execute => self.execute(server, path, number, payload),
            Operation::Delete => self.delete(server, path),
            Operation::Create => self.create(server, path, number, payload),
            Operation::WriteAttributes => {
                self.write_attributes(server, path, message.options().as_slice())
            }
        }
    }

    /// Does what a request asks for, and returns its answer. The answer, and what is managed then, are those of the
    /// first rule that refuses the request, otherwise of its success (`outcome`): Read of every kind of path, Discover,
    /// Write (Replace and Partial Update), Execute, Create, Delete and Write-Attributes, with the rights of up to four
    /// servers. With it comes what it asks of the observation of its server and token (`interest`): to be registered
    /// with Observe 0, to be cancelled with 1, in a Read whose options are understood and whose path is one; and
    /// whether a critical option is not recognized (`rejected`).
    ///
    /// No refusal of an option, a path, a method, a server, an operation that the target does not have or a format
    /// takes memory (`request`, `has`); those that may are listed by rule (`may_lack_memory`). What is managed after an
    /// allocation failed is open.
    pub fn answer(&mut self, server: u16, message: &Message) -> Result<RequestResult, AllocError>
        ensures outcome { IfOk result (λ h. Leaves h.answer self.new (outcome_of self.old server message.now)) }
        ensures interest { IfOk result (λ h. h.interest ≡ interest_of message.now) }
        ensures rejected { IfOk result (λ h. h.is_rejected ≡ has_unrecognized_critical message.now.options) }

        // No refusal of an option, a path, a method, a server, an operation that the target does not have or a format
        // takes memory.
        ensures request { OnErr result (IsOk (request_of message.now)) }
        ensures has { OnErr result (IfOk (request_of message.now) (λ r.
            lacks_operation self.old.catalog r.path (purpose_of message.now r.operation) ≡ false)) }
        ensures may_lack_memory { OnErr result (takes_memory (outcome_of self.old server message.now).answer.ruling
            ≡ true) }
    {
        match Request::read(message) {
            Err(ruling) => Ok(RequestResult {
                answer: Answer::bare(self.alloc, ruling),
                interest: None,
                is_rejected: ruling.is_of_options(),
            }),
            Ok(request) => {
                let answer = self.perform(server, message, request)?;
                Ok(RequestResult {
                    answer,
                    interest: interest_at(request),
                    is_rejected: false,
                })
            }
        }
    }
}
