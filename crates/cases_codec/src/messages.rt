//! Messages and their bytes (RFC 7252 section 3).

use crate::forms::{bytes, hex, last_bytes, put_hex};
use crate::question::Question;
use case_sheet::Sheet;
use coap_codec::{CoapFault, Kind, Message, Opt, Options, encode, header, uint, uint_bytes};
use octets::Bytes;

/// Answers a question of this subject; `false` where the subject is none of this module's.
pub fn answer(subject: &str, question: &mut Question<'_>, out: &mut Sheet) -> bool {
    match subject {
        "write-coap" => write_parts(question, out),
        "coap-header" => front(question, out),
        "coap-fault" => fault_number(question, out),
        "uint" => number(question, out),
        "write-uint" => write_number(question, out),
        _ => return false,
    }
    true
}

/// `write-coap PARTS`: the bytes of the message of these parts, or `refused` where there is none.
fn write_parts(question: &mut Question<'_>, out: &mut Sheet) {
    match message(question) {
        Some(message) => put_message(out, &message),
        None => out.put("refused"),
    }
}

fn put_message(out: &mut Sheet, message: &Message) {
    match encode(out.alloc(), message) {
        Ok(bytes) => put_hex(out, bytes.as_slice()),
        Err(_) => out.cut(),
    }
}

/// The message of these parts, if there is one.
fn message(question: &mut Question<'_>) -> Option<Message> {
    let (kind, code) = (kind(question), code(question));
    question.expect("mid");
    let mid = question.half();
    question.expect("token");
    let token = Bytes::from_vec(bytes(question));
    question.expect("options");
    let options = options(question);
    let payload = Bytes::from_vec(last_bytes(question));
    Message::new(kind, code, mid, token, options, payload)
}

/// The next word as a code, its class before the dot and its detail after it.
fn code(question: &mut Question<'_>) -> u8 {
    if let Some((class, detail)) = question.word().split_once('.')
        && let (Ok(class), Ok(detail)) = (class.parse::<u8>(), detail.parse::<u8>())
        && class < 8
        && detail < 32
    {
        return class * 32 + detail;
    }
    question.refuse("not a code");
    0
}

/// The options of the words `NUMBER:HEX`, `-` for none, up to the word `payload`, which is skipped.
fn options(question: &mut Question<'_>) -> Options {
    match question.rest().split_once(" payload ") {
        Some((words, behind)) => {
            question.turn_to(behind);
            options_of(question, words)
        }
        None => {
            question.refuse("no payload");
            Options::new(question.alloc())
        }
    }
}

fn options_of(question: &mut Question<'_>, words: &str) -> Options {
    let mut options = Options::new(question.alloc());
    if words != "-" {
        for word in words.split(' ') {
            add_option(question, &mut options, word);
        }
    }
    options
}

fn add_option(question: &mut Question<'_>, options: &mut Options, word: &str) {
    let Some((number, value)) = word.split_once(':') else {
        question.refuse("an option without a colon");
        return;
    };
    let number = question.half_of(number);
    let value = Bytes::from_vec(hex(question, value));
    if options.push(Opt { number, value }).is_err() {
        question.cut();
    }
}

/// `coap-header HEX`: the type and the message ID of what begins as a message does, or `none`.
fn front(question: &mut Question<'_>, out: &mut Sheet) {
    let bytes = last_bytes(question);
    match header(bytes.as_slice()) {
        Some((kind, mid)) => {
            out.put_all(&[kind_name(kind), " mid "]);
            out.put_number(u64::from(mid));
        }
        None => out.put("none"),
    }
}

/// `uint HEX`: the number that an option's value of at most 4 bytes spells.
fn number(question: &mut Question<'_>, out: &mut Sheet) {
    let bytes = last_bytes(question);
    if bytes.len() > 4 {
        question.refuse("more than 4 bytes");
    } else {
        out.put_number(u64::from(uint(bytes.as_slice())));
    }
}

/// `write-uint N`: the value of an option of this number.
fn write_number(question: &mut Question<'_>, out: &mut Sheet) {
    let number = question.last_natural();
    match u32::try_from(number) {
        Ok(number) => put_uint(out, number),
        Err(_) => question.refuse("not a number of 32 bits"),
    }
}

fn put_uint(out: &mut Sheet, number: u32) {
    match uint_bytes(out.alloc(), number) {
        Ok(bytes) => put_hex(out, bytes.as_slice()),
        Err(_) => out.cut(),
    }
}

/// The type that the next word names.
fn kind(question: &mut Question<'_>) -> Kind {
    match question.word() {
        "con" => Kind::Con,
        "non" => Kind::Non,
        "ack" => Kind::Ack,
        "rst" => Kind::Rst,
        _ => {
            question.refuse("not a type of message");
            Kind::Con
        }
    }
}

fn kind_name(kind: Kind) -> &'static str {
    match kind {
        Kind::Con => "con",
        Kind::Non => "non",
        Kind::Ack => "ack",
        Kind::Rst => "rst",
    }
}

const FAULTS: [CoapFault; 9] = [
    CoapFault::Short,
    CoapFault::Version,
    CoapFault::TokenLength,
    CoapFault::EmptyWithData,
    CoapFault::OptionCut,
    CoapFault::OptionReserved,
    CoapFault::OptionNumber,
    CoapFault::PayloadEmpty,
    CoapFault::Memory,
];

/// `coap-fault NAME`: the number of a fault.
fn fault_number(question: &mut Question<'_>, out: &mut Sheet) {
    let word = question.word();
    question.end();
    for fault in FAULTS {
        if fault_name(fault) == word {
            out.put_number(u64::from(fault as u8));
            return;
        }
    }
    question.refuse("not a fault");
}

fn fault_name(fault: CoapFault) -> &'static str {
    match fault {
        CoapFault::Short => "short",
        CoapFault::Version => "version",
        CoapFault::TokenLength => "token-length",
        CoapFault::EmptyWithData => "empty-with-data",
        CoapFault::OptionCut => "option-cut",
        CoapFault::OptionReserved => "option-reserved",
        CoapFault::OptionNumber => "option-number",
        CoapFault::PayloadEmpty => "payload-empty",
        CoapFault::Memory => "memory",
    }
}
