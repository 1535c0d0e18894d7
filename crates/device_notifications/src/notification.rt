//! The messages of observations.

ghost use Rattle.std.specs.Prelude.{◌≡◌, ◌≢◌, ◌++◌, ℕ, Option, slice_get, IfOk, OnErr, OnOk, Some};
ghost use Rattle.std.specs.Option.{option_to_list};
ghost use Rattle.coap_codec.specs.Message.{IsOptionList, spelling};
ghost use Rattle.notifier.specs.Observed.{HasToken};
ghost use Rattle.notifier.specs.declared.observation.Observation.{Observation};
ghost use Rattle.device_notifications.specs.Message.{datagram_of, format_options, notification, observe_options};
ghost use Rattle.device_notifications.specs.Message.{open_notification, resent_datagram};
ghost use Rattle.device_notifications.specs.Second.{next_notification, notified_kind, timer_of};

use crate::datagram::Datagram;
use crate::outbox::Outbox;
use coap_codec::option_number::{CONTENT_FORMAT, OBSERVE};
use coap_codec::{Kind, Message, Options, encode};
use device_requests::{Answer, Client};
use notifier::{Observation, Observations, Timer};
use octets::Bytes;
use std::alloc::{AllocError, Global};

/// Observe and Content-Format, in the order of their numbers.
fn options_of(
    alloc: Global,
    number: Option<u32>,
    format: Option<u16>,
) -> Result<Options, AllocError>
    ensures { IfOk result (λ o. o ≡ observe_options number ++ format_options format) }
{
    let mut options = Options::new(alloc);
    options.push_number(alloc, OBSERVE, number)?;
    options.push_short_number(alloc, CONTENT_FORMAT, format)?;
    Ok(options)
}

/// An answer as a message of the device's own, of this type, with the observation's token.
#[tactic(auto, using(crate::proofs::Options::in_order))]
fn notification(
    alloc: Global,
    kind: Kind,
    observation: &Observation,
    mid: u16,
    number: Option<u32>,
    answer: &Answer,
) -> Result<Message, AllocError>
    requires { HasToken observation.now }
    ensures { IfOk result (λ m. m ≡ notification kind observation.now mid number answer.now) }
{
    let options = options_of(alloc, number, answer.format)?;
    let token = observation.token.clone()?;
    let payload = answer.payload.clone()?;
    Ok(Message::of_parts(kind, answer.code().byte(), mid, token, options, payload))
}

/// That message, on its way to the observation's server.
pub(crate) fn datagram_of(
    alloc: Global,
    kind: Kind,
    observation: &Observation,
    mid: u16,
    number: Option<u32>,
    answer: &Answer,
) -> Result<Datagram, AllocError>
    requires { HasToken observation.now }
    ensures { IfOk result (λ d. d ≡ datagram_of kind observation.now mid number answer.now) }
{
    let message = notification(alloc, kind, observation, mid, number, answer)?;
    Ok(Datagram {
        server: observation.server,
        bytes: Bytes::from_vec(encode(alloc, &message)?),
    })
}

/// The type of a notification of content.
fn notified_kind(client: &Client) -> Kind
    ensures { result ≡ notified_kind client.now }
{
    if client.notify() == 0 {
        Kind::Non
    } else {
        Kind::Con
    }
}

/// A notification of content, with the next Observe number.
pub(crate) fn next_notification(
    alloc: Global,
    client: &Client,
    observation: &Observation,
    mid: u16,
    answer: &Answer,
) -> Result<Datagram, AllocError>
    requires { HasToken observation.now }
    ensures { IfOk result (λ d. d ≡ next_notification client.now mid observation.now answer.now) }
{
    let number = Some(observation.next_number());
    datagram_of(
        alloc,
        notified_kind(client),
        observation,
        mid,
        number,
        answer,
    )
}

/// What a notification is sent again by, if it is Confirmable.
pub(crate) fn timer_of(client: &Client, datagram: &Datagram) -> Result<Option<Timer>, AllocError>
    ensures timer { IfOk result (λ t. t ≡ timer_of client.now datagram.now.bytes) }
    ensures may_lack_memory { OnErr result (client.now.notify ≢ 0) }
{
    let first = client.notify();
    if first == 0 {
        return Ok(None);
    }
    let bytes = datagram.bytes.clone()?;
    Ok(Some(Timer { bytes, first }))
}

/// The notification that an observation has open, with the same bytes.
fn resent(observation: &Observation, timer: &Timer) -> Result<Datagram, AllocError>
    ensures { IfOk result (λ d. d ≡ resent_datagram observation.now timer.now) }
{
    let bytes = timer.bytes.clone()?;
    Ok(Datagram {
        server: observation.server,
        bytes,
    })
}

/// Sends the notification of the observation at a place again, if it is open.
pub(crate) fn resend(
    observations: &Observations,
    place: usize,
    outbox: &mut Outbox,
) -> Result<(), AllocError>
    ensures sent { OnOk result ((o : Observation) → slice_get observations.now.list place ≡ Some o
        → outbox.new.sent ≡ outbox.old.sent ++ option_to_list (open_notification o)) }
    ensures next_id { outbox.new.next_id ≡ outbox.old.next_id }
    ensures unchanged { OnErr result (outbox.new ≡ outbox.old) }
{
    let Some(observation) = observations.at(place) else {
        return Ok(());
    };
    let Some(timer) = &observation.timer else {
        return Ok(());
    };
    outbox.repost(resent(observation, timer)?)
}
