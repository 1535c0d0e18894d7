//! What a request leaves of the observations.

ghost use Rattle.std.specs.Prelude.{◌≡◌, ◌≤◌, true, false, is_some, length, IfOk, OnErr, OnOk};
ghost use Rattle.device_machine.specs.Observing.{Notes, after_registration, lacks_place, new_observation, noted_by};
ghost use Rattle.device_machine.specs.Observing.{noted_read, replies_non, reply_mid};
ghost use Rattle.device_machine.specs.Held.{IsUpToDate};
ghost use Rattle.device_notifications.specs.Outlooks.{IsKnown, IsKnownBut};
ghost use Rattle.device_requests.specs.Answer.{is_content};
ghost use Rattle.device_requests.specs.Client.{Client};
ghost use Rattle.notifier.specs.Observed.{has_name};

use crate::machine::Machine;
use coap_codec::{Kind, Message};
use device_notifications::{report_of, say_named};
use device_requests::{Answer, Interest};
use notifier::{Observations, ObserveFault, Report};
use object_defs::Path;
use octets::Bytes;
use std::alloc::AllocError;

/// The message ID of the reply to a request.
fn reply_mid(next_id: u16, message: &Message) -> u16
    ensures { result ≡ reply_mid next_id message.now message.now.kind }
{
    match message.kind() {
        Kind::Non => next_id,
        Kind::Con | Kind::Ack | Kind::Rst => message.mid(),
    }
}

/// Whether the reply to a request of this type is a NON.
fn replies_non(kind: Kind) -> bool
    ensures { result ≡ replies_non kind }
{
    match kind {
        Kind::Non => true,
        Kind::Con | Kind::Ack | Kind::Rst => false,
    }
}

/// A copy of the token of a message.
fn token_of(message: &Message) -> Result<Bytes, AllocError>
    ensures value { IfOk result (λ t. t ≡ message.now.token) }
    ensures short { IfOk result (λ t. length t ≤ 8) }
{
    // For the proof alone: a message whose options are read is known to be well formed.
    let _known = message.options();
    message.token().clone()
}

/// Registers an observation where there is a place for it. Answers the Observe number of the reply,
/// the last message's.
fn enter(
    observations: &mut Observations,
    server: u16,
    token: Bytes,
    path: Path,
    accept: Option<u16>,
    report: Report,
    second: u64,
    mid: u16,
    non: bool,
) -> Result<Option<u32>, AllocError>
    requires { length token ≤ 8 }
    ensures number { IfOk result (λ n. n ≡ (after_registration observations.old.list
        (record {
          server = server;
          token = token;
          path = path;
          accept = accept;
          report = report;
          second =
              second;
          number = 0;
          non = non;
          mid = mid;
          timer = None;
        })).number) }
    ensures left { OnOk result (observations.new.list
        ≡ (after_registration observations.old.list (record {
          server = server;
          token = token;
          path = path;
          accept = accept;
          report =
              report;
          second = second;
          number = 0;
          non = non;
          mid = mid;
          timer = None;
        })).left) }

    // Only a new name takes memory, where there is a place for it.
    ensures may_lack_memory { OnErr result (has_name observations.old.list server token ≡ false) }
    ensures place { OnErr result (lacks_place observations.old.list server token ≡ false) }
    ensures unchanged { OnErr result (observations.new ≡ observations.old) }

    // Until its present answer is said too, those of the others are known as before.
    ensures known { OnOk result ((client : Client) → IsKnown client observations.old
        → IsKnownBut server token client observations.new) }
{
    let number = match observations.register(
        server, token, path, accept, report, second, mid, non,
    ) {
        Ok(number) => number,
        Err(ObserveFault::Full) => return Ok(None),
        Err(ObserveFault::Memory) => return Err(AllocError),
    };
    Ok(Some(number))
}

impl Machine {
    /// Registers an observation with this content where there is a place for it. Answers the Observe number.
    fn enter(
        &mut self,
        server: u16,
        message: &Message,
        path: Path,
        accept: Option<u16>,
        payload: Bytes,
    ) -> Result<Option<u32>, AllocError>
        requires { IsUpToDate self.old }
        ensures kept { IfOk result (λ n. Notes n self.old.flat.kept self.new.flat.kept
            (after_registration self.old.flat.kept.observations
            (new_observation self.old.flat.kept server message.now path accept payload))) }
        ensures recorded { OnOk result (self.new.flat.recorded ≡ self.old.flat.recorded) }
        ensures up_to_date { OnOk result (IsUpToDate self.new) }
    {
        let token = token_of(message)?;
        let report = report_of(&self.client, path, payload);
        let mid = reply_mid(self.next_id, message);
        let non = replies_non(message.kind());
        let now = self.clock;
        let observations = &mut self.observations;
        let number = enter(
            observations,
            server,
            token,
            path,
            accept,
            report,
            now,
            mid,
            non,
        )?;
        let name = message.token().as_slice();
        say_named(&self.client, &mut self.observations, server, name)?;
        Ok(number)
    }

    /// Notes a Read that registers.
    fn note_read(
        &mut self,
        server: u16,
        message: &Message,
        path: Path,
        accept: Option<u16>,
        answer: &Answer,
    ) -> Result<Option<u32>, AllocError>
        requires { IsUpToDate self.old }
        ensures kept { IfOk result (λ n. Notes n self.old.flat.kept self.new.flat.kept
            (noted_read self.old.flat.kept server message.now path accept answer.now)) }
        ensures recorded { OnOk result (self.new.flat.recorded ≡ self.old.flat.recorded) }
        ensures up_to_date { OnOk result (IsUpToDate self.new) }
        ensures may_lack_memory { OnErr result (is_content answer.now ≡ true) }
    {
        if answer.is_content() {
            let payload = answer.payload.clone()?;
            return self.enter(server, message, path, accept, payload);
        }
        self.observations.cancel(server, message.token().as_slice());
        Ok(None)
    }

    /// Notes what a request with this answer asks of the observations. Answers the Observe number of its reply.
    pub(super) fn note(
        &mut self,
        server: u16,
        message: &Message,
        interest: Option<Interest>,
        answer: &Answer,
    ) -> Result<Option<u32>, AllocError>
        requires { IsUpToDate self.old }
        ensures kept { IfOk result (λ n. Notes n self.old.flat.kept self.new.flat.kept
            (noted_by self.old.flat.kept server message.now answer.now interest)) }
        ensures recorded { OnOk result (self.new.flat.recorded ≡ self.old.flat.recorded) }
        ensures up_to_date { OnOk result (IsUpToDate self.new) }

        // Only the content of a Read that registers takes memory.
        ensures content { OnErr result (is_content answer.now ≡ true) }
        ensures may_lack_memory { OnErr result (is_some interest ≡ true) }
    {
        match interest {
            None => Ok(None),
            Some(Interest::Register { path, accept }) => {
                self.note_read(server, message, path, accept, answer)
            }
            Some(Interest::Cancel) => {
                self.observations.cancel(server, message.token().as_slice());
                Ok(None)
            }
        }
    }
}
