ghost use Rattle.std.specs.Prelude.{◌≡◌, [], true, IfOk};
ghost use Rattle.coap_codec.specs.Message.{spelling};
ghost use Rattle.scenario_mnemonics.specs.Messages.{fields_of, kind_of, message_of, datagram_of, has_words};

use crate::action::Action;
use crate::mnemonic::{Mnemonic, Request};
use crate::options::options_of;
use crate::request_type::RequestType;
use coap_codec::{Kind, Message, Options};
use octets::Bytes;
use std::alloc::{AllocError, Global};

fn kind_of(kind: RequestType) -> Kind
    ensures { result ≡ kind_of kind }
{
    match kind {
        RequestType::Con => Kind::Con,
        RequestType::Non => Kind::Non,
    }
}

/// The method (RFC 7252 section 12.1.1).
fn code_of(action: &Action) -> u8
    ensures { result ≡ (fields_of action.now).code }
{
    match action {
        Action::Read(_) | Action::Observe(_) | Action::Cancel(_) | Action::Discover => 1,
        Action::Update(_, _) | Action::Create(_, _) | Action::Exec(_) => 2,
        Action::Write(_, _) | Action::Attr(_) => 3,
        Action::Delete => 4,
    }
}

fn payload_of(alloc: Global, action: &Action) -> Result<Bytes, AllocError>
    ensures { IfOk result (λ b. b ≡ (fields_of action.now).payload) }
{
    match action {
        Action::Write(_, payload)
        | Action::Update(_, payload)
        | Action::Create(_, payload)
        | Action::Exec(payload) => Ok(payload.clone()?),
        _ => Ok(Bytes::new(alloc)),
    }
}

/// The queries of an action are well formed, where it has some.
fn queries_formed(action: &Action)
    ensures { has_words action.now ≡ true }
{
    if let Action::Attr(queries) = action {
        // For the proof alone: queries that are read are known to be well formed.
        let _known = queries.as_slice();
    }
}

#[tactic(auto, using(crate::proofs::OptionOrder::request_well_formed))]
fn request_message(alloc: Global, request: &Request) -> Result<Message, AllocError>
    ensures { IfOk result (λ m. m ≡ message_of (Mnemonic.Request request.now)) }
{
    queries_formed(&request.action);
    let token = request.token.bytes().clone()?;
    let options = options_of(alloc, request.path, &request.action)?;
    let payload = payload_of(alloc, &request.action)?;
    Ok(Message::of_parts(
        kind_of(request.kind),
        code_of(&request.action),
        request.mid,
        token,
        options,
        payload,
    ))
}

fn reset_message(alloc: Global, mid: u16) -> Message
    ensures { result ≡ message_of (Mnemonic.Reset mid) }
{
    Message::of_parts(
        Kind::Rst,
        0,
        mid,
        Bytes::new(alloc),
        Options::new(alloc),
        Bytes::new(alloc),
    )
}

fn message_of(alloc: Global, mnemonic: &Mnemonic) -> Result<Message, AllocError>
    ensures { IfOk result (λ m. m ≡ message_of mnemonic.now) }
{
    match mnemonic {
        Mnemonic::Request(request) => request_message(alloc, request),
        Mnemonic::Reset(mid) => Ok(reset_message(alloc, *mid)),
    }
}

/// The datagram of a mnemonic: the encoding of its message (RFC 7252 section 3), which has the options that the
/// mnemonic says and no other.
pub fn encode(alloc: Global, mnemonic: &Mnemonic) -> Result<Bytes, AllocError>
    ensures { IfOk result (λ b. b ≡ datagram_of mnemonic.now) }
{
    let message = message_of(alloc, mnemonic)?;
    Ok(Bytes::from_vec(coap_codec::encode(alloc, &message)?))
}
