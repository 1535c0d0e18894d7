//! The observations of a device (RFC 7641): what operations on them answer.

ghost use Rattle.std.specs.Prelude.{◌≤◌, length};

use crate::forms::{last_bytes, put_hex};
use crate::places::put_yes_no;
use crate::question::Question;
use case_sheet::Sheet;
use notifier::{Observations, ObserveFault, Pending, Report, Timer, Turn};
use object_defs::Path;
use octets::Bytes;

/// Answers a question of this subject; `false` where the subject is none of this module's.
pub fn answer(subject: &str, question: &mut Question<'_>, out: &mut Sheet) -> bool {
    if subject != "observations" {
        return false;
    }
    operations(question, out);
    true
}

/// `observations OPERATIONS`: what each answers, of a device that has no observation before. Server 1's interest is in
/// the battery level /3/0/9.
fn operations(question: &mut Question<'_>, out: &mut Sheet) {
    let mut observations = Observations::new(out.alloc());
    let mut kept = Observations::new(out.alloc());
    for operation in question.rest().split(';') {
        question.turn_to(operation.trim());
        take(question, out, &mut observations, &mut kept);
    }
}

/// Adds what an operation answers.
fn take(
    question: &mut Question<'_>,
    out: &mut Sheet,
    observations: &mut Observations,
    kept: &mut Observations,
) {
    out.next("; ");
    match question.rest() {
        "copy" => copy(out, observations, kept),
        "restore" => copy(out, kept, observations),
        _ => operate(question, out, observations),
    }
}

fn copy(out: &mut Sheet, from: &Observations, to: &mut Observations) {
    match from.copy() {
        Ok(copy) => {
            *to = copy;
            out.put("ok");
        }
        Err(_) => out.cut(),
    }
}

fn operate(question: &mut Question<'_>, out: &mut Sheet, observations: &mut Observations) {
    match question.word() {
        "register" => register_named(question, out, observations),
        "fill" => fill(question, out, observations),
        "sent" => sent(question, out, observations),
        "open" => open(question, out, observations),
        "remove" => remove(question, out, observations),
        "pending" => pending(question, out, observations),
        name => answer_to(question, out, observations, name),
    }
}

/// A message of a server by which observations change.
fn answer_to(
    question: &mut Question<'_>,
    out: &mut Sheet,
    observations: &mut Observations,
    name: &str,
) {
    match name {
        "cancel" => cancel(question, out, observations),
        "reset" => {
            let (server, mid) = (question.half(), question.last_half());
            out.put_number(observations.reset(server, mid) as u64);
        }
        "acknowledge" => {
            let (server, mid) = (question.half(), question.last_half());
            put_yes_no(out, observations.acknowledge(server, mid));
        }
        _ => ask(question, out, observations, name),
    }
}

/// The operations that change nothing.
fn ask(question: &mut Question<'_>, out: &mut Sheet, observations: &Observations, name: &str) {
    match name {
        "second" => second(question, out, observations),
        "len" => out.put_number(observations.len() as u64),
        "is-empty" => put_yes_no(out, observations.is_empty()),
        "turn" => turn(question, out, observations),
        "bytes" => open_bytes(question, out, observations),
        "due" => due(question, out, observations),
        "place" => place(question, out, observations),
        _ => question.refuse("not an operation on observations"),
    }
}

/// `register TOKEN`.
fn register_named(question: &mut Question<'_>, out: &mut Sheet, observations: &mut Observations) {
    let token = last_bytes(question);
    register(question, out, observations, token.as_slice());
}

/// Registers server 1's interest in the battery level 100, at second 0 by an acknowledgement with message ID 10.
/// Answers the Observe number.
fn register(
    question: &mut Question<'_>,
    out: &mut Sheet,
    observations: &mut Observations,
    token: &[u8],
) {
    if token.len() > 8 {
        question.refuse("a token has 8 bytes at most");
        return;
    }
    let token = octets_of(out, token);
    let report = report(out, b"100", 100);
    let path = Path::Resource(3, 0, 9);
    match observations.register(1, token, path, None, report, 0, 10, false) {
        Ok(number) => out.put_number(u64::from(number)),
        Err(ObserveFault::Full) => out.put("full"),
        Err(ObserveFault::Memory) => out.cut(),
    }
}

/// The same bytes; none where memory runs out.
fn octets_of(out: &mut Sheet, bytes: &[u8]) -> Bytes
    ensures { length result ≤ length bytes.now }
{
    match Bytes::from_slice(out.alloc(), bytes) {
        Ok(bytes) => bytes,
        Err(_) => {
            out.cut();
            Bytes::new(out.alloc())
        }
    }
}

fn report(out: &mut Sheet, payload: &[u8], number: i64) -> Report {
    Report {
        payload: octets_of(out, payload),
        number: Some(number),
    }
}

/// `fill COUNT`: registers tokens of the one byte 0, 1 .., this many. Answers their Observe numbers, `-` for none.
fn fill(question: &mut Question<'_>, out: &mut Sheet, observations: &mut Observations) {
    let count = question.byte();
    question.end();
    if count == 0 {
        out.put("-");
    }
    for token in 0..count {
        if token > 0 {
            out.put(",");
        }
        register(question, out, observations, &[token]);
    }
}

/// `cancel SERVER TOKEN`.
fn cancel(question: &mut Question<'_>, out: &mut Sheet, observations: &mut Observations) {
    let server = question.half();
    let token = last_bytes(question);
    put_yes_no(out, observations.cancel(server, token.as_slice()));
}

/// `sent PLACE SECOND MID`: a notification by a NON that reports the battery level 80. Answers the Observe number.
fn sent(question: &mut Question<'_>, out: &mut Sheet, observations: &mut Observations) {
    let (place, second) = (question.half(), question.natural());
    let mid = question.last_half();
    notify(out, observations, place, second, mid, None);
}

/// `open PLACE SECOND MID FIRST HEX`: the same by a CON of these bytes, whose first timeout is FIRST seconds.
fn open(question: &mut Question<'_>, out: &mut Sheet, observations: &mut Observations) {
    let (place, second) = (question.half(), question.natural());
    let (mid, first) = (question.half(), question.byte());
    let bytes = Bytes::from_vec(last_bytes(question));
    let timer = Some(Timer { bytes, first });
    notify(out, observations, place, second, mid, timer);
}

/// A notification that reports the battery level 80.
fn notify(
    out: &mut Sheet,
    observations: &mut Observations,
    place: u16,
    second: u64,
    mid: u16,
    timer: Option<Timer>,
) {
    let place = usize::from(place);
    if place >= observations.len() {
        out.put("none");
    } else {
        let report = report(out, b"80", 80);
        out.put_number(u64::from(observations.sent(place, second, mid, report, timer)));
    }
}

/// `remove PLACE`.
fn remove(question: &mut Question<'_>, out: &mut Sheet, observations: &mut Observations) {
    let place = usize::from(question.last_half());
    if place >= observations.len() {
        out.put("none");
    } else {
        observations.remove(place);
        out.put("ok");
    }
}

/// `second PLACE`: that of the last message.
fn second(question: &mut Question<'_>, out: &mut Sheet, observations: &Observations) {
    match observations.at(usize::from(question.last_half())) {
        Some(observation) => out.put_number(observation.second),
        None => out.put("none"),
    }
}

/// `turn PLACE SECOND`: what an observation does in that second.
fn turn(question: &mut Question<'_>, out: &mut Sheet, observations: &Observations) {
    let place = usize::from(question.half());
    let second = question.last_natural();
    if place >= observations.len() {
        out.put("none");
        return;
    }
    out.put(match observations.turn(place, second) {
        Turn::Evaluate => "evaluate",
        Turn::Wait => "wait",
        Turn::Resend => "resend",
        Turn::Expire => "expire",
    });
}

/// `bytes PLACE`: those of a notification that waits for its acknowledgement.
fn open_bytes(question: &mut Question<'_>, out: &mut Sheet, observations: &Observations) {
    match observations.open_bytes(usize::from(question.last_half())) {
        Some(bytes) => put_hex(out, bytes),
        None => out.put("none"),
    }
}

/// `pending PLACE idle|changed|gone CODE PMIN PMAX`: says what the present answer of an observation is, and its
/// periods; `-` for no PMAX. CODE is a byte in decimal, and stands after `gone` alone.
fn pending(question: &mut Question<'_>, out: &mut Sheet, observations: &mut Observations) {
    let place = usize::from(question.half());
    let pending = answered(question);
    let (pmin, pmax) = (question.natural(), last_pmax(question));
    if place >= observations.len() {
        out.put("none");
    } else {
        observations.pending(place, pending, pmin, pmax);
        out.put("ok");
    }
}

/// What the present answer of an observation is.
fn answered(question: &mut Question<'_>) -> Pending {
    match question.word() {
        "idle" => Pending::Idle,
        "changed" => Pending::Changed,
        "gone" => Pending::Gone(question.byte()),
        _ => {
            question.refuse("not idle, changed or gone");
            Pending::Idle
        }
    }
}

fn last_pmax(question: &mut Question<'_>) -> Option<u64> {
    if question.rest() == "-" {
        None
    } else {
        Some(question.last_natural())
    }
}

/// `place SERVER TOKEN`: the place of the observation of this name.
fn place(question: &mut Question<'_>, out: &mut Sheet, observations: &Observations) {
    let server = question.half();
    let token = last_bytes(question);
    match observations.place_of(server, token.as_slice()) {
        Some(place) => out.put_number(place as u64),
        None => out.put("none"),
    }
}

/// `due SECOND`: the first second after this one in which an observation sends or is removed, by what was said.
fn due(question: &mut Question<'_>, out: &mut Sheet, observations: &Observations) {
    match observations.due(question.last_natural()) {
        Some(second) => out.put_number(second),
        None => out.put("none"),
    }
}
