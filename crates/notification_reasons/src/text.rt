//! A happening in words.

ghost use Rattle.std.specs.Prelude.{◌≡◌, IfOk};
ghost use Rattle.std.specs.String.{string_bytes};
ghost use Rattle.notification_reasons.specs.Text.{crossed_words, due_text, due_words, elapsed_words, ended_words};
ghost use Rattle.notification_reasons.specs.Text.{given_up_words};
ghost use Rattle.notification_reasons.specs.Text.{head_text, reason_words, resent_words, happening_line, happening_text};
ghost use Rattle.notification_reasons.specs.Text.{stepped_words};

use crate::reasons::{DueBy, Happening, NotificationReason};
use device_requests::thousandths_text;
use message_words::class_and_detail;
use object_defs::path_text;
use std::alloc::{AllocError, Global};

/// One number and then another, between which this bound lies.
fn crossed_words(
    alloc: Global,
    old: &str,
    now: &str,
    name: &str,
    bound: &str,
) -> Result<String, AllocError>
    ensures { IfOk result (λ text. string_bytes text ≡ crossed_words old.now now.now name.now bound.now) }
{
    format!(in alloc; "{old} to {now} crosses {name} {bound}")
}

/// Two numbers that are st or more apart.
fn stepped_words(alloc: Global, old: &str, now: &str, st: &str) -> Result<String, AllocError>
    ensures { IfOk result (λ text. string_bytes text ≡ stepped_words old.now now.now st.now) }
{
    format!(in alloc; "|{old} - {now}| >= st {st}")
}

/// A maximum period that is over.
fn elapsed_words(alloc: Global, pmax: u64) -> Result<String, AllocError>
    ensures { IfOk result (λ text. string_bytes text ≡ elapsed_words pmax) }
{
    format!(in alloc; "pmax {pmax} is over, with no trigger")
}

/// What makes content due.
fn due_text(alloc: Global, by: DueBy) -> Result<String, AllocError>
    ensures { IfOk result (λ text. string_bytes text ≡ due_text by) }
{
    match by {
        DueBy::Gt { old, now, gt } => {
            let old = old.to_string(alloc)?;
            let now = now.to_string(alloc)?;
            let gt = thousandths_text(alloc, gt)?;
            crossed_words(alloc, old.as_str(), now.as_str(), "gt", gt.as_str())
        }
        DueBy::Lt { old, now, lt } => {
            let old = old.to_string(alloc)?;
            let now = now.to_string(alloc)?;
            let lt = thousandths_text(alloc, lt)?;
            crossed_words(alloc, old.as_str(), now.as_str(), "lt", lt.as_str())
        }
        DueBy::St { old, now, st } => {
            let old = old.to_string(alloc)?;
            let now = now.to_string(alloc)?;
            let st = thousandths_text(alloc, st)?;
            stepped_words(alloc, old.as_str(), now.as_str(), st.as_str())
        }
        DueBy::Payload => String::from_str(alloc, "another payload"),
        DueBy::Pmax { pmax } => elapsed_words(alloc, pmax),
    }
}

/// What happens, for what path and in what second.
fn head_text(alloc: Global, what: &str, path: &str, second: u64) -> Result<String, AllocError>
    ensures { IfOk result (λ text. string_bytes text ≡ head_text what.now path.now second) }
{
    format!(in alloc; "{what} of {path} in second {second}")
}

/// Content that is due.
fn due_words(
    alloc: Global,
    head: &str,
    why: &str,
    age: u64,
    pmin: u64,
) -> Result<String, AllocError>
    ensures { IfOk result (λ text. string_bytes text ≡ due_words head.now why.now age pmin) }
{
    format!(in alloc; "{head}: {why}, {age} s after the last message, pmin {pmin}")
}

/// A notification that is sent again.
fn resent_words(alloc: Global, head: &str, times: u8, after: u64) -> Result<String, AllocError>
    ensures { IfOk result (λ text. string_bytes text ≡ resent_words head.now times after) }
{
    format!(in alloc; "{head}: resending {times} of 4, {after} s after the first sending")
}

/// An end.
fn ended_words(alloc: Global, head: &str, code: &str) -> Result<String, AllocError>
    ensures { IfOk result (λ text. string_bytes text ≡ ended_words head.now code.now) }
{
    format!(in alloc; "{head}: the present answer is {code}")
}

/// An end of an observation that nobody acknowledged.
fn given_up_words(alloc: Global, head: &str, after: u64) -> Result<String, AllocError>
    ensures { IfOk result (λ text. string_bytes text ≡ given_up_words head.now after) }
{
    format!(in alloc; "{head}: nobody acknowledged its notification, first sent {after} s before")
}

/// Why something happens for a path in a second.
fn reason_words(
    alloc: Global,
    path: &str,
    second: u64,
    reason: NotificationReason,
) -> Result<String, AllocError>
    ensures { IfOk result (λ text. string_bytes text ≡ reason_words path.now second reason) }
{
    match reason {
        NotificationReason::Due { by, age, pmin } => {
            let head = head_text(alloc, "notification", path, second)?;
            let why = due_text(alloc, by)?;
            due_words(alloc, head.as_str(), why.as_str(), age, pmin)
        }
        NotificationReason::Resent { times, after } => {
            let head = head_text(alloc, "notification", path, second)?;
            resent_words(alloc, head.as_str(), times, after)
        }
        NotificationReason::Ended { code } => {
            let head = head_text(alloc, "end of the observation", path, second)?;
            let code = class_and_detail(alloc, code)?;
            ended_words(alloc, head.as_str(), code.as_str())
        }
        NotificationReason::Unacknowledged { after } => {
            let head = head_text(alloc, "end of the observation", path, second)?;
            given_up_words(alloc, head.as_str(), after)
        }
    }
}

/// What happens to an observation, in words, in one line without its end: for which path and in which second, and the
/// trigger, the maximum period, the resending, the code of the answer that ends the observation, or that nobody
/// acknowledged its notification.
pub fn happening_text(alloc: Global, happening: &Happening) -> Result<String, AllocError>
    ensures { IfOk result (λ text. string_bytes text ≡ happening_text happening.now) }
{
    let path = path_text(alloc, happening.path)?;
    reason_words(alloc, path.as_str(), happening.second, happening.reason)
}

/// The line with these words, which begins as a comment does.
pub fn happening_line(alloc: Global, happening: &Happening) -> Result<String, AllocError>
    ensures { IfOk result (λ line. string_bytes line ≡ happening_line happening.now) }
{
    let words = happening_text(alloc, happening)?;
    format!(in alloc; "    # {words}\n")
}
