//! What a device does with a datagram.

ghost use Rattle.std.specs.Prelude.{◌≡◌, ◌<◌, ◌≤◌, ◌++◌, Option, None, true, false, length, IfOk, OnErr, OnOk};
ghost use Rattle.std.specs.Prelude.{option_map};
ghost use Rattle.device_notifications.specs.Outlooks.{IsKnown};
ghost use Rattle.coap_codec.specs.Fault.{is_empty_message};
ghost use Rattle.coap_codec.specs.Message.{Message as MessageData, spelling};
ghost use Rattle.device_machine.specs.declared.event.Event.TheVariants.{Recv};
ghost use Rattle.device_machine.specs.Reactions.{Gives, claims_confirmable, is_request, on_fresh, on_message, on_noise};
ghost use Rattle.device_machine.specs.Reactions.{reply_with};
ghost use Rattle.device_machine.specs.Reactions.{on_outcome, on_request, outputs_of_act, reaction_to, repeat_of};
ghost use Rattle.device_machine.specs.Reactions.{sent_to};
ghost use Rattle.device_machine.specs.Asked.{message_with};
ghost use Rattle.device_machine.specs.Memory.{event_takes_memory, is_ignored, message_takes_memory};
ghost use Rattle.device_machine.specs.Memory.{request_takes_memory};
ghost use Rattle.device_machine.specs.Held.{IsUpToDate};
ghost use Rattle.device_requests.specs.Answer.{is_change};
ghost use Rattle.device_machine.specs.State.{lifetime};
ghost use Rattle.device_requests.specs.Request.{outcome_of};

use super::repeats::again;
use crate::machine::Machine;
use crate::output::Outputs;
use crate::recorded::Recorded;
use crate::reply::{Asked, asked_by, reply_datagram, reset, sent, sent_to};
use coap_codec::{CoapFault, Kind, Message, decode_in, header};
use device_notifications::say_all;
use device_requests::{Act, Answer, Client, Code, plain_read};
use notifier::Observations;
use octets::Bytes;
use std::alloc::{AllocError, Global};
use std::mem;

/// Whether a code is a request's.
fn is_request(code: u8) -> bool
    ensures { result ≡ is_request code }
{
    code / 32 == 0 && code != 0
}

/// Whether bytes are an Empty message: a header alone, of code 0.00 and without a token (RFC 7252 section 4.1).
fn is_empty(bytes: &[u8]) -> bool
    ensures { result ≡ is_empty_message bytes.now }
{
    match bytes {
        [first, code, _, _] => *first / 64 == 1 && *first % 16 == 0 && *code == 0,
        _ => false,
    }
}

/// Whether the header says that bytes are ignored, whatever follows: there is none of version 1, or it is that of an
/// acknowledgement or a Reset, and the message is not Empty (RFC 7252 sections 3 and 4.2).
fn is_ignored(bytes: &[u8]) -> bool
    ensures { result ≡ is_ignored bytes.now }
{
    match header(bytes) {
        None => true,
        Some((Kind::Con | Kind::Non, _)) => false,
        Some((Kind::Ack | Kind::Rst, _)) => !is_empty(bytes),
    }
}

/// Says of each observation anew what its present answer is, where an answer of this code has changed something.
fn say_after(client: &Client, observations: &mut Observations, code: Code) -> Result<(), AllocError>
    ensures list { observations.new.list ≡ observations.old.list }
    ensures known { OnOk result (is_change code ≡ true → IsKnown client.now observations.new) }
    ensures same { is_change code ≡ false → observations.new ≡ observations.old }
{
    if code.is_change() {
        return say_all(client, observations);
    }
    Ok(())
}

/// What is output for a request that is no repeat: the datagram that replies to it, if one does, and then the act.
#[inline(always)]
fn outputs_of(
    alloc: Global,
    server: u16,
    reply: &Option<Bytes>,
    act: Option<Act>,
) -> Result<Outputs, AllocError>
    ensures { IfOk result (λ o. o ≡ sent_to server reply.now ++ outputs_of_act act) }
{
    let mut outputs = sent_to(alloc, server, reply)?;
    outputs.act(act)?;
    Ok(outputs)
}

impl Machine {
    /// Records a request that is no repeat with the datagram that replies to it, if one does, sends that, and acts.
    /// Each request that is no repeat ends with it, so it is a part of what handles one.
    #[inline(always)]
    pub(super) fn conclude(
        &mut self,
        server: u16,
        asked: Asked<'_>,
        reply: Option<Bytes>,
        act: Option<Act>,
    ) -> Result<Outputs, AllocError>
        requires fresh { repeat_of self.old.flat server (message_with asked.kind asked.mid asked.token.now) ≡ None }
        requires lives { 0 < lifetime asked.kind }
        requires up_to_date { IsUpToDate self.old }
        ensures gives { (said : Option MessageData) → reply ≡ option_map spelling said
            → IfOk result (λ o. Gives o self.new.flat
            (on_fresh self.old.flat server (message_with asked.entry.kind asked.entry.mid asked.entry.token.now)
            self.old.flat.kept said act)) }
        ensures up_to_date { OnOk result (IsUpToDate self.new) }
        ensures unchanged { OnErr result (self.new ≡ self.old) }
    {
        let is_answered = reply.is_some();
        let outputs = outputs_of(self.alloc, server, &reply, act)?;
        let second = self.clock;
        self.recorded.push(Recorded {
            server,
            kind: asked.kind,
            mid: asked.mid,
            second,
            reply,
        })?;
        if asked.kind == Kind::Non && is_answered {
            self.next_id = self.next_id.wrapping_add(1);
        }
        Ok(outputs)
    }

    /// Answers a request that is no repeat: records it with the datagram that replies to it, sends that, and acts.
    pub(super) fn reply(
        &mut self,
        server: u16,
        asked: Asked<'_>,
        is_rejected: bool,
        number: Option<u32>,
        answer: &Answer,
    ) -> Result<Outputs, AllocError>
        requires fresh { repeat_of self.old.flat server (message_with asked.kind asked.mid asked.token.now) ≡ None }
        requires lives { 0 < lifetime asked.kind }
        requires token { length asked.token.now ≤ 8 }
        requires up_to_date { IsUpToDate self.old }
        ensures gives { IfOk result (λ o. Gives o self.new.flat
            (on_fresh self.old.flat server (message_with asked.entry.kind asked.entry.mid asked.entry.token.now)
            self.old.flat.kept
            (reply_with self.old.flat.kept.next_id asked.entry.kind asked.entry.mid asked.entry.token.now is_rejected
            number answer.now)
            answer.now.act)) }
        ensures up_to_date { OnOk result (IsUpToDate self.new) }
        ensures unchanged { OnErr result (self.new ≡ self.old) }
    {
        let reply = reply_datagram(
            self.alloc,
            &mut self.buffer,
            self.next_id,
            asked,
            is_rejected,
            number,
            answer,
        )?;
        self.conclude(server, asked, reply, answer.act)
    }

    /// Handles a first-time request: performs, replies, records.
    fn take_fresh(&mut self, server: u16, message: &Message) -> Result<Outputs, AllocError>
        requires fresh { repeat_of self.old.flat server message.now ≡ None }
        requires lives { 0 < lifetime message.now.kind }
        requires up_to_date { IsUpToDate self.old }
        ensures gives { IfOk result
            (λ o. Gives o self.new.flat (on_outcome self.old.flat server message.now
            (outcome_of self.old.flat.kept.client server message.now))) }
        ensures up_to_date { OnOk result (IsUpToDate self.new) }
    {
        let handled = self.client.answer(server, message)?;
        say_after(&self.client, &mut self.observations, handled.answer.code())?;
        let number = self.note(server, message, handled.interest, &handled.answer)?;
        let asked = asked_by(message);
        self.reply(server, asked, handled.is_rejected, number, &handled.answer)
    }

    /// Takes a request.
    fn take_request(&mut self, server: u16, message: &Message) -> Result<Outputs, AllocError>
        requires lives { 0 < lifetime message.now.kind }
        requires up_to_date { IsUpToDate self.old }
        ensures gives { IfOk result
            (λ o. Gives o self.new.flat (on_request self.old.flat server message.now
            (repeat_of self.old.flat server message.now))) }
        ensures may_lack_memory { OnErr result (request_takes_memory message.now.kind
            (repeat_of self.old.flat server message.now)
            ≡ true) }
        ensures up_to_date { OnOk result (IsUpToDate self.new) }
    {
        match self.repeat_of(server, message) {
            Some(first) => again(self.alloc, server, message.kind(), &first.reply),
            None => self.take_fresh(server, message),
        }
    }

    /// Takes a message.
    fn take(&mut self, server: u16, message: &Message) -> Result<Outputs, AllocError>
        requires { IsUpToDate self.old }
        ensures gives { IfOk result (λ o. Gives o self.new.flat
            (on_message self.old.flat server message.now message.now.kind)) }
        ensures may_lack_memory { OnErr result (message_takes_memory self.old.flat server message.now message.now.kind
            ≡ true) }
        ensures up_to_date { OnOk result (IsUpToDate self.new) }
    {
        match message.kind() {
            Kind::Con => {
                if is_request(message.code()) {
                    self.take_request(server, message)
                } else {
                    sent(self.alloc, server, &reset(self.alloc, message.mid()))
                }
            }
            Kind::Non => {
                if is_request(message.code()) {
                    self.take_request(server, message)
                } else {
                    Ok(Outputs::none(self.alloc))
                }
            }
            Kind::Ack => {
                if message.code() != 0 {
                    return Ok(Outputs::none(self.alloc));
                }
                self.observations.acknowledge(server, message.mid());
                Ok(Outputs::none(self.alloc))
            }
            Kind::Rst => {
                if message.code() != 0 {
                    return Ok(Outputs::none(self.alloc));
                }
                self.observations.reset(server, message.mid());
                Ok(Outputs::none(self.alloc))
            }
        }
    }

    /// Handles a message, then reclaims the memory of its options.
    fn take_owned(&mut self, server: u16, message: Message) -> Result<Outputs, AllocError>
        requires { IsUpToDate self.old }
        ensures gives { IfOk result (λ o. Gives o self.new.flat
            (on_message self.old.flat server message message.kind)) }
        ensures may_lack_memory { OnErr result (message_takes_memory self.old.flat server message message.kind ≡ true) }
        ensures up_to_date { OnOk result (IsUpToDate self.new) }
    {
        let outputs = self.take(server, &message)?;
        self.spare = message.into_spare();
        Ok(outputs)
    }

    /// Takes bytes that are no message.
    fn take_noise(&self, server: u16, bytes: &[u8]) -> Result<Outputs, AllocError>
        ensures gives { IfOk result (λ o. Gives o self.now.flat (on_noise self.now.flat server bytes.now)) }

        // Only a Reset takes memory.
        ensures may_lack_memory { OnErr result (claims_confirmable bytes.now ≡ true) }
    {
        let Some((kind, mid)) = header(bytes) else {
            return Ok(Outputs::none(self.alloc));
        };
        match kind {
            Kind::Con => sent(self.alloc, server, &reset(self.alloc, mid)),
            Kind::Non | Kind::Ack | Kind::Rst => Ok(Outputs::none(self.alloc)),
        }
    }

    /// Takes a datagram, whatever it is.
    #[inline(never)]
    fn receive_any(&mut self, server: u16, bytes: &[u8]) -> Result<Outputs, AllocError>
        requires { IsUpToDate self.old }
        ensures gives { IfOk result (λ o. Gives o self.new.flat (reaction_to self.old.flat (Recv server bytes.now))) }

        // Only a CON, or a NON that is copied, of a server with an account takes memory.
        ensures may_lack_memory { OnErr result (event_takes_memory self.old.flat.kept (Recv server bytes.now) ≡ true) }
        ensures up_to_date { OnOk result (IsUpToDate self.new) }
    {
        if !self.client.has_account(server) {
            return Ok(Outputs::none(self.alloc));
        }
        if is_ignored(bytes) {
            return Ok(Outputs::none(self.alloc));
        }
        let spare = mem::replace(&mut self.spare, Vec::new(self.alloc));
        match decode_in(self.alloc, spare, bytes) {
            Ok(message) => self.take_owned(server, message),
            Err(CoapFault::Memory) => Err(AllocError),
            Err(_) => self.take_noise(server, bytes),
        }
    }

    /// Takes a datagram. A plain Read, as most are, goes the short way.
    pub(super) fn receive(&mut self, server: u16, bytes: &[u8]) -> Result<Outputs, AllocError>
        requires { IsUpToDate self.old }
        ensures gives { IfOk result (λ o. Gives o self.new.flat (reaction_to self.old.flat (Recv server bytes.now))) }
        ensures may_lack_memory { OnErr result (event_takes_memory self.old.flat.kept (Recv server bytes.now) ≡ true) }
        ensures up_to_date { OnOk result (IsUpToDate self.new) }
    {
        match plain_read(bytes) {
            Some(read) => self.receive_plain(server, bytes, read),
            None => self.receive_any(server, bytes),
        }
    }
}
