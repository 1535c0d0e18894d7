//! The payloads of one value, and of Writes to a resource or a part of one (OMA LwM2M 1.1 Core, data formats).

use crate::forms::put_hex;
use crate::question::Question;
use crate::values::value;
use crate::writing;
use case_sheet::Sheet;
use lwm2m_payloads::{Format, write_part, write_single};
use octets::Bytes;
use std::alloc::AllocError;

/// Answers a question of this subject; `false` where the subject is none of this module's.
pub fn answer(subject: &str, question: &mut Question<'_>, out: &mut Sheet) -> bool {
    match subject {
        "payload" => payload(question, out),
        "write" => writing::write(question, out),
        _ => return false,
    }
    true
}

/// The next word as a format.
pub fn format(question: &mut Question<'_>) -> Format {
    match question.word() {
        "plain" => Format::PlainText,
        "octets" => Format::OctetStream,
        "tlv" => Format::Tlv,
        _ => {
            question.refuse("not a format");
            Format::Tlv
        }
    }
}

/// Adds a payload in hex, or `none`.
pub fn put_payload(out: &mut Sheet, payload: Result<Option<Bytes>, AllocError>) {
    match payload {
        Ok(Some(bytes)) => put_hex(out, bytes.as_slice()),
        Ok(None) => out.put("none"),
        Err(_) => out.cut(),
    }
}

/// `payload FORMAT resource|part NUMBER VALUE`: the payload that shows one value.
fn payload(question: &mut Question<'_>, out: &mut Sheet) {
    let (format, what, number) = (format(question), question.word(), question.half());
    let value = value(question);
    let alloc = out.alloc();
    match what {
        "resource" => put_payload(out, write_single(alloc, format, number, &value)),
        "part" => put_payload(out, write_part(alloc, format, number, &value)),
        _ => question.refuse("neither resource nor part"),
    }
}
