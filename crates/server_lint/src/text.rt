//! What a finding says.
ghost use Rattle.std.specs.Prelude.{◌≡◌, ◌++◌, codes, find, reverse, IfOk};
ghost use Rattle.std.specs.Option.{option_copied};
ghost use Rattle.std.specs.String.{string_bytes};
ghost use Rattle.server_lint.specs.Observing.{is_sent_for, response_to};
ghost use Rattle.server_lint.specs.Pairs.{is_again_within, reuses_id};
ghost use Rattle.server_lint.specs.Text.{code_of, deed_of, finding_text, seconds_after, seconds_since_last};

use crate::breaking::times_sent_within;
use crate::observing::{is_sent_for, response_to};
use crate::pairs::{is_again_within, reuses_id, seconds_since};
use crate::rule::Rule;
use crate::transmission::Transmission;
use coap_codec::Message;
use message_words::{class_and_detail, datagram_text};
use std::alloc::{AllocError, Global};

fn seconds_after(t: &Transmission, earlier: Option<&Transmission>) -> u32
    ensures { result ≡ seconds_after t.now (option_copied earlier.entry) }
{
    match earlier {
        None => 0,
        Some(earlier) => seconds_since(earlier, t),
    }
}

/// The last earlier one for which its message ID is used again.
fn last_used<'a>(before: &'a [Transmission], t: &Transmission) -> Option<&'a Transmission>
    ensures { option_copied result ≡ find (λ earlier. reuses_id earlier t.now) (reverse before.now) }
{
    before.iter().rev().find(|earlier| reuses_id(earlier, t))
}

/// The last earlier one that it is again, less than 2 s after it.
fn last_sent<'a>(before: &'a [Transmission], t: &Transmission) -> Option<&'a Transmission>
    ensures { option_copied result ≡ find (λ earlier. is_again_within 2 earlier t.now) (reverse before.now) }
{
    before
        .iter()
        .rev()
        .find(|earlier| is_again_within(2, earlier, t))
}

/// The last earlier one that the device sent with its token.
fn last_notified<'a>(before: &'a [Transmission], t: &Transmission) -> Option<&'a Transmission>
    ensures { option_copied result ≡ find (λ earlier. is_sent_for t.now earlier) (reverse before.now) }
{
    before.iter().rev().find(|earlier| is_sent_for(t, earlier))
}

/// The code of a message, as `4.05`.
fn code_of(alloc: Global, response: Option<&Message>) -> Result<String, AllocError>
    ensures { IfOk result (λ text. string_bytes text ≡ code_of (option_copied response.entry)) }
{
    match response {
        None => Ok(String::new(alloc)),
        Some(message) => class_and_detail(alloc, message.code()),
    }
}

/// What is said of a request that the device refuses.
fn refused(alloc: Global, t: &Transmission, after: &[Transmission]) -> Result<String, AllocError>
    ensures { IfOk result (λ text. string_bytes text
        ≡ codes " is refused: " ++ code_of (response_to t.now after.now)) }
{
    let code = code_of(alloc, response_to(t, after))?;
    format!(in alloc; " is refused: {code}")
}

/// What was done with a message ID.
fn deed_of(
    alloc: Global,
    rule: Rule,
    before: &[Transmission],
    t: &Transmission,
    after: &[Transmission],
    end: u32,
) -> Result<String, AllocError>
    ensures { IfOk result (λ text. string_bytes text ≡ deed_of rule before.now t.now after.now end) }
{
    match rule {
        Rule::NotAMessage => Ok(String::new(alloc)),
        Rule::MessageIdReused => {
            let seconds = seconds_after(t, last_used(before, t));
            format!(in alloc; " again for other bytes after {seconds} s")
        }
        Rule::RepeatedTooSoon => {
            let seconds = seconds_after(t, last_sent(before, t));
            format!(in alloc; " sent again after {seconds} s")
        }
        Rule::RepeatedTooOften => {
            let times = times_sent_within(247, before, t);
            format!(in alloc; " sent again {times} times within 247 s")
        }
        Rule::AnswersNothing => String::from_str(alloc, " answers nothing that was sent"),
        Rule::NotificationNotAcknowledged => {
            let seconds = end.saturating_sub(t.second());
            format!(in alloc; " neither acknowledged nor reset in the {seconds} s after it")
        }
        Rule::UnknownCriticalOption => {
            String::from_str(alloc, " has a critical option that is not recognized")
        }
        Rule::EmptyPathSegment => String::from_str(alloc, " has an empty segment in its path"),
        Rule::ReplyNotEmpty => String::from_str(alloc, " acknowledges or resets, and is not Empty"),
        Rule::AcknowledgedLate => String::from_str(alloc, " answers what had been sent 5 times"),
        Rule::RepeatedAfterReply => {
            String::from_str(alloc, " sent again after the device had answered it")
        }
        Rule::NumberNotShortest => {
            String::from_str(alloc, " has a number with a leading zero byte")
        }
        Rule::TokenInUse => {
            String::from_str(alloc, " has the token of an observation of another path")
        }
        Rule::RegisteredWhileFresh => {
            let seconds = seconds_after(t, last_notified(before, t));
            format!(in alloc;
                " registers anew {seconds} s after the latest message of its observation"
            )
        }
        Rule::ObservationNotTaken => {
            String::from_str(
                alloc,
                " registers an observation that the device does not take",
            )
        }
        Rule::RequestRefused => refused(alloc, t, after),
        Rule::RequestUnanswered => String::from_str(alloc, " is answered by nothing"),
        Rule::ObservationLeft => {
            String::from_str(alloc, " registers an observation that lives on at the end")
        }
    }
}

/// What a finding by this rule says of the datagram between these, in a history that ends in this second.
pub fn finding_text(
    alloc: Global,
    rule: Rule,
    before: &[Transmission],
    t: &Transmission,
    after: &[Transmission],
    end: u32,
) -> Result<String, AllocError>
    ensures { IfOk result (λ text. string_bytes text ≡ finding_text rule before.now t.now after.now end) }
{
    match t.message() {
        None => datagram_text(alloc, t.bytes()),
        Some(message) => {
            let mid = message.mid();
            let deed = deed_of(alloc, rule, before, t, after, end)?;
            format!(in alloc; "message ID {mid}{deed}")
        }
    }
}
