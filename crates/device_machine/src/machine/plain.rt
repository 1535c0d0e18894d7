//! The short way of a plain Read: a GET that names a path and nothing else.

ghost use Rattle.std.specs.Prelude.{◌≡◌, ◌<◌, ◌≤◌, None, true, false, length, IfOk, MatchResult, OnErr, OnOk};
ghost use Rattle.std.specs.Fmt.{signed_decimal};
ghost use Rattle.coap_codec.specs.Message.{Message, kind_number};
ghost use Rattle.coap_codec.specs.Reading.{reading_of};
ghost use Rattle.device_requests.specs.Answer.{content};
ghost use Rattle.device_requests.specs.Outcomes.{read_answer};
ghost use Rattle.device_requests.specs.PlainRead.{IsPlainRead};
ghost use Rattle.device_requests.specs.declared.answer.Answer.{Answer};
ghost use Rattle.device_machine.specs.Asked.{message_with};
ghost use Rattle.device_machine.specs.Held.{IsUpToDate};
ghost use Rattle.device_machine.specs.declared.event.Event.TheVariants.{Recv};
ghost use Rattle.device_machine.specs.Memory.{event_takes_memory, request_takes_memory};
ghost use Rattle.device_machine.specs.Reactions.{Gives, on_fresh, on_outcome, on_request, reaction_to, repeat_of, reply_with};
ghost use Rattle.device_machine.specs.State.{lifetime};
ghost use Rattle.device_requests.specs.Request.{outcome_of};

use super::repeats::again;
use crate::machine::Machine;
use crate::output::Outputs;
use crate::reply::{Asked, number_reply};
use device_requests::PlainRead;
use object_defs::Path;
use std::alloc::AllocError;

impl Machine {
    /// Replies to a plain Read that is no repeat with a number in digits.
    fn reply_number(
        &mut self,
        server: u16,
        asked: Asked<'_>,
        number: i64,
    ) -> Result<Outputs, AllocError>
        requires fresh { repeat_of self.old.flat server (message_with asked.kind asked.mid asked.token.now) ≡ None }
        requires lives { 0 < lifetime asked.kind }
        requires token { length asked.token.now ≤ 8 }
        requires up_to_date { IsUpToDate self.old }
        ensures gives { IfOk result (λ o. Gives o self.new.flat
            (on_fresh self.old.flat server (message_with asked.entry.kind asked.entry.mid asked.entry.token.now)
            self.old.flat.kept
            (reply_with self.old.flat.kept.next_id asked.entry.kind asked.entry.mid asked.entry.token.now false None
            (content 0 (signed_decimal number)))
            None)) }
        ensures up_to_date { OnOk result (IsUpToDate self.new) }
        ensures unchanged { OnErr result (self.new ≡ self.old) }
    {
        let reply = number_reply(self.alloc, &mut self.buffer, self.next_id, asked, number)?;
        self.conclude(server, asked, reply, None)
    }

    /// Replies to a plain Read of a path that is no repeat with whatever its answer is. A call of its own, for which a
    /// Read of a number does not pay.
    #[inline(never)]
    fn reply_read(
        &mut self,
        server: u16,
        asked: Asked<'_>,
        path: Path,
    ) -> Result<Outputs, AllocError>
        requires fresh { repeat_of self.old.flat server (message_with asked.kind asked.mid asked.token.now) ≡ None }
        requires lives { 0 < lifetime asked.kind }
        requires token { length asked.token.now ≤ 8 }
        requires up_to_date { IsUpToDate self.old }
        ensures gives { (answer : Answer) → answer ≡ read_answer self.old.flat.kept.client server path None
            → IfOk result (λ o. Gives o self.new.flat
            (on_fresh self.old.flat server (message_with asked.entry.kind asked.entry.mid asked.entry.token.now)
            self.old.flat.kept
            (reply_with self.old.flat.kept.next_id asked.entry.kind asked.entry.mid asked.entry.token.now false None
            answer)
            answer.act)) }
        ensures up_to_date { OnOk result (IsUpToDate self.new) }
        ensures unchanged { OnErr result (self.new ≡ self.old) }
    {
        let answer = self.client.read(server, path, None)?;
        self.reply(server, asked, false, None, &answer)
    }

    /// Answers a plain Read that is no repeat.
    fn take_fresh_plain(&mut self, server: u16, read: PlainRead<'_>) -> Result<Outputs, AllocError>
        requires fresh { repeat_of self.old.flat server (message_with read.kind read.mid read.token.now) ≡ None }
        requires lives { 0 < lifetime read.kind }
        requires token { length read.token.now ≤ 8 }
        requires up_to_date { IsUpToDate self.old }
        ensures gives { (m : Message)
            → IsPlainRead read.entry.kind read.entry.mid read.entry.token.now read.entry.path m
            → IfOk result (λ o. Gives o self.new.flat (on_outcome self.old.flat server m
            (outcome_of self.old.flat.kept.client server m))) }
        ensures up_to_date { OnOk result (IsUpToDate self.new) }
        ensures unchanged { OnErr result (self.new ≡ self.old) }
    {
        let asked = Asked {
            kind: read.kind,
            mid: read.mid,
            token: read.token,
        };
        match self.client.number_read(server, read.path) {
            Some(number) => self.reply_number(server, asked, number),
            None => self.reply_read(server, asked, read.path),
        }
    }

    /// Takes a plain Read.
    pub(super) fn take_plain(
        &mut self,
        server: u16,
        read: PlainRead<'_>,
    ) -> Result<Outputs, AllocError>
        requires lives { 0 < lifetime read.kind }
        requires token { length read.token.now ≤ 8 }
        requires up_to_date { IsUpToDate self.old }
        ensures gives { (m : Message)
            → IsPlainRead read.entry.kind read.entry.mid read.entry.token.now read.entry.path m
            → IfOk result (λ o. Gives o self.new.flat (on_request self.old.flat server m
            (repeat_of self.old.flat server m))) }
        ensures may_lack_memory { (m : Message)
            → IsPlainRead read.entry.kind read.entry.mid read.entry.token.now read.entry.path m
            → OnErr result (request_takes_memory read.entry.kind (repeat_of self.old.flat server m) ≡ true) }
        ensures up_to_date { OnOk result (IsUpToDate self.new) }
        ensures unchanged { OnErr result (self.new ≡ self.old) }
    {
        match self.first_of(server, read.kind, read.mid) {
            Some(first) => again(self.alloc, server, read.kind, &first.reply),
            None => self.take_fresh_plain(server, read),
        }
    }

    /// Takes a datagram that is a plain Read. The bytes are for the contract alone, which says whose reading it is.
    pub(super) fn receive_plain(
        &mut self,
        server: u16,
        _bytes: &[u8],
        read: PlainRead<'_>,
    ) -> Result<Outputs, AllocError>
        requires reads { MatchResult (reading_of _bytes.now)
            (λ m. IsPlainRead read.kind read.mid read.token.now read.path m) (λ f. ⊥) }
        requires kind { kind_number read.kind < 2 }
        requires token { length read.token.now ≤ 8 }
        requires up_to_date { IsUpToDate self.old }
        ensures gives { IfOk result (λ o. Gives o self.new.flat (reaction_to self.old.flat (Recv server _bytes.now))) }
        ensures may_lack_memory { OnErr result (event_takes_memory self.old.flat.kept (Recv server _bytes.now) ≡ true) }
        ensures up_to_date { OnOk result (IsUpToDate self.new) }
        ensures unchanged { OnErr result (self.new ≡ self.old) }
    {
        if !self.client.has_account(server) {
            return Ok(Outputs::none(self.alloc));
        }
        self.take_plain(server, read)
    }
}
