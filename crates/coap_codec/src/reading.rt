ghost use Rattle.std.specs.Prelude.{◌≡◌, ◌≢◌, ◌≤◌, ◌<◌, ◌+◌, ◌*◌, ◌++◌, ◌∷◌, List, ℕ, [], length, drop, IfOk, IfErr};
ghost use Rattle.std.specs.Prelude.{IfSome, IfNone, OnOk, IsErrAnd, IsOk, IsOkAnd, MatchOption, MatchResult, Some, None, Ok};
ghost use Rattle.std.specs.Prelude.{Err, true};
ghost use Rattle.std.specs.Result.{result_ok};
ghost use Rattle.coap_codec.specs.Message.{Message, MayFollow, IsOptionList, Spells, kind_number, two_bytes, nibble_of};
ghost use Rattle.coap_codec.specs.Message.{extension_of, option_bytes, options_bytes, payload_bytes};
ghost use Rattle.coap_codec.specs.Fault.{token_length, header_fault, width, amount, option_fault, place_fault};
ghost use Rattle.coap_codec.specs.Fault.{last_number};
ghost use Rattle.coap_codec.specs.Fault.{BreaksOff, HasFault, HasEarlyFault, is_empty_message};
ghost use Rattle.coap_codec.specs.Reading.{reading_of};

use crate::front::kind_of;
use crate::{CoapFault, Kind, Message, Opt, Options};
use octets::Bytes;
use std::alloc::{AllocError, Global};

/// The header of a message, its token, and what stands after them (RFC 7252 section 3).
#[derive(Drop)]
pub struct Front<'a> {
    /// The type.
    pub kind: Kind,
    /// The code.
    pub code: u8,
    /// The message ID.
    pub mid: u16,
    /// The token, of at most 8 bytes.
    pub token: &'a [u8],
    /// The bytes after the token, which are not looked at.
    pub rest: &'a [u8],
}

/// The number that a nibble and the bytes after it stand for, and what stands after those.
fn amount_at(nibble: u8, bytes: &[u8]) -> Option<(u32, &[u8])>
    requires { nibble < 15 }
    ensures parts { IfSome result (λ x. bytes.now ≡ extension_of x.0 ++ x.1.now) }
    ensures nibble { IfSome result (λ x. nibble_of x.0 ≡ nibble) }
    ensures amount { IfSome result (λ x. x.0 ≡ amount nibble bytes.now) }
    ensures rest { IfSome result (λ x. x.1.now ≡ drop (width nibble) bytes.now) }
    ensures wide { IfSome result (λ x. width nibble ≤ length bytes.now) }
    ensures small { IfSome result (λ x. x.0 ≤ 65804) }
    ensures cut { IfNone result (length bytes.now < width nibble) }
{
    if nibble < 13 {
        return Some((u32::from(nibble), bytes));
    }
    if nibble == 13 {
        let [first, rest @ ..] = bytes else {
            return None;
        };
        return Some((13 + u32::from(*first), rest));
    }
    let [first, second, rest @ ..] = bytes else {
        return None;
    };
    Some((269 + 256 * u32::from(*first) + u32::from(*second), rest))
}

/// The header and the token.
fn start_of(bytes: &[u8]) -> Result<Front<'_>, CoapFault>
    ensures sound { IfOk result (λ s. header_fault bytes.now ≡ None) }
    ensures parts { IfOk result
        (λ s. bytes.now ≡ ((64 + 16 * kind_number s.kind + length s.token.now) ∷ s.code ∷ two_bytes s.mid)
        ++ (s.token.now ++ s.rest.now)) }
    ensures rest { IfOk result (λ s. s.rest.now ≡ drop (4 + token_length bytes.now) bytes.now) }
    ensures token { IfOk result (λ s. length s.token.now ≤ 8) }
    ensures empty { IfOk result (λ s. s.code ≡ 0 → (s.token.now ≡ []) × (s.rest.now ≡ [])) }
    ensures range { IfOk result (λ s. (s.code < 256) × (s.mid < 65536)) }
    ensures fault { IfErr result (λ f. header_fault bytes.now ≡ Some f) }
    ensures whole { is_empty_message bytes.now ≡ true → IsOk result }
{
    let [first, code, high, low, rest @ ..] = bytes else {
        return Err(CoapFault::Short);
    };
    let length = usize::from(*first % 16);
    if *first / 64 != 1 {
        return Err(CoapFault::Version);
    }
    if length > 8 {
        return Err(CoapFault::TokenLength);
    }
    if *code == 0 && (length != 0 || !rest.is_empty()) {
        return Err(CoapFault::EmptyWithData);
    }
    if rest.len() < length {
        return Err(CoapFault::OptionCut);
    }
    let (token, rest) = rest.split_at(length);
    Ok(Front {
        kind: kind_of(*first / 16 % 4),
        code: *code,
        mid: 256 * u16::from(*high) + u16::from(*low),
        token,
        rest,
    })
}

/// The number of an option, its value, and what stands after them.
#[derive(Drop)]
struct OptionFront<'a> {
    number: u16,
    value: &'a [u8],
    rest: &'a [u8],
}

/// The option of this first byte, after one of this number.
fn option_at(number: u16, first: u8, bytes: &[u8]) -> Result<OptionFront<'_>, CoapFault>
    ensures follows { IfOk result (λ x. MayFollow number (record { number = x.number; value = x.value.now })) }
    ensures parts { IfOk result (λ x. first ∷ bytes.now
        ≡ option_bytes number (record { number = x.number; value = x.value.now }) ++ x.rest.now) }
    ensures sound { IfOk result (λ _. option_fault number first bytes.now ≡ None) }
    ensures fault { IfErr result (λ f. option_fault number first bytes.now ≡ Some f) }
{
    let high = first / 16;
    let low = first % 16;
    if high == 15 || low == 15 {
        return Err(CoapFault::OptionReserved);
    }
    let Some((delta, rest)) = amount_at(high, bytes) else {
        return Err(CoapFault::OptionCut);
    };
    let number = u32::from(number) + delta;
    if number > 65535 {
        return Err(CoapFault::OptionNumber);
    }
    let Some((length, rest)) = amount_at(low, rest) else {
        return Err(CoapFault::OptionCut);
    };
    let length = length as usize;
    if rest.len() < length {
        return Err(CoapFault::OptionCut);
    }
    let (value, rest) = rest.split_at(length);
    let number = number as u16;
    Ok(OptionFront {
        number,
        value,
        rest,
    })
}

/// Adds the option of this first byte to options of which the last has this number, and returns its number and what
/// stands after it.
fn push_option<'a>(
    alloc: Global,
    found: &mut Vec<Opt>,
    number: u16,
    first: u8,
    bytes: &'a [u8],
) -> Result<(u16, &'a [u8]), CoapFault>
    requires last { number ≡ last_number 0 found.old.items }
    requires list { IsOptionList 0 found.old.items }
    ensures last { IfOk result (λ x. x.0 ≡ last_number 0 found.new.items) }
    ensures list { OnOk result (IsOptionList 0 found.new.items) }
    ensures parts { IfOk result (λ x. options_bytes 0 found.old.items ++ first ∷ bytes.now
        ≡ options_bytes 0 found.new.items ++ x.1.now) }
    ensures shorter { IfOk result (λ x. length x.1.now ≤ length bytes.now) }
    ensures fault { IfErr result (λ f. f ≢ CoapFault.Memory → option_fault number first bytes.now ≡ Some f) }
    ensures refused { (f : CoapFault) → option_fault number first bytes.now ≡ Some f → result ≡ Err f }
{
    let option = option_at(number, first, bytes)?;
    let value = Bytes::from_slice(alloc, option.value)?;
    let number = option.number;
    found.push(Opt { number, value })?;
    Ok((number, option.rest))
}

/// The options, in the memory of this list, and the payload after them.
fn options_at(alloc: Global, spare: Vec<Opt>, bytes: &[u8]) -> Result<(Vec<Opt>, &[u8]), CoapFault>
    ensures follow { IfOk result (λ x. IsOptionList 0 x.0.items) }
    ensures parts { IfOk result (λ x. bytes.now ≡ options_bytes 0 x.0.items ++ payload_bytes x.1.now) }
    ensures fault { IfErr result (λ f. f ≢ CoapFault.Memory → BreaksOff 0 bytes.now f) }
    ensures early { (f : CoapFault) → place_fault 0 bytes.now ≡ Some f → result ≡ Err f }
    ensures none { length bytes.now ≡ 0 → IsOk result }
    ensures alone { (payload : List ℕ) → bytes.now ≡ payload_bytes payload
        → IsOkAnd result (λ x. x.1.now ≡ payload) }
{
    let mut found = spare;
    found.clear();
    let mut number: u16 = 0;
    let mut rest = bytes;
    while let [first, after @ ..] = rest {
        if *first == 255 {
            if after.is_empty() {
                return Err(CoapFault::PayloadEmpty);
            }
            return Ok((found, after));
        }
        (number, rest) = push_option(alloc, &mut found, number, *first, after)?;
    }
    Ok((found, rest))
}

/// The header and the token that bytes begin with, or what is wrong there, whatever stands after them. It takes no
/// memory. Of bytes that spell a message they are that message's (`message`).
pub fn front_of(bytes: &[u8]) -> Result<Front<'_>, CoapFault>
    ensures parts { IfOk result
        (λ s. bytes.now ≡ ((64 + 16 * kind_number s.kind + length s.token.now) ∷ s.code ∷ two_bytes s.mid)
        ++ (s.token.now ++ s.rest.now)) }
    ensures token { IfOk result (λ s. length s.token.now ≤ 8) }
    ensures empty { IfOk result (λ s. s.code ≡ 0 → (s.token.now ≡ []) × (s.rest.now ≡ [])) }
    ensures range { IfOk result (λ s. (s.code < 256) × (s.mid < 65536)) }
    ensures sound { IfOk result (λ s. header_fault bytes.now ≡ None) }
    ensures fault { IfErr result (λ f. header_fault bytes.now ≡ Some f) }
    ensures message { (m : Message) → Spells bytes.now m → IsOkAnd result
        (λ s. (s.kind ≡ m.kind) × (s.code ≡ m.code) × (s.mid ≡ m.mid) × (s.token.now ≡ m.token)
        × (s.rest.now ≡ options_bytes 0 m.options ++ payload_bytes m.payload)) }
{
    start_of(bytes)
}

/// The message that bytes spell (RFC 7252 section 3), extended options included; of bytes that spell none their one
/// fault, the first from the left. `reading` says the same by the function `reading_of`. A fault of the header, or of
/// what stands right after the token, is found before memory is taken (`early`); an Empty message takes none (`empty`),
/// nor does one without options whose payload has at most 16 bytes (`no_option`).
pub fn decode(alloc: Global, bytes: &[u8]) -> Result<Message, CoapFault>
    ensures found { IfOk result (λ m. Spells bytes.now m) }
    ensures only { (m : Message) → Spells bytes.now m → MatchResult result (λ x. x ≡ m) (λ f. f ≡ CoapFault.Memory) }
    ensures fault { IfErr result (λ f. f ≢ CoapFault.Memory → HasFault bytes.now f) }
    ensures refused { (f : CoapFault) → HasFault bytes.now f → IsErrAnd result (λ g. g ≢ CoapFault.Memory → g ≡ f) }
    // The faults of a header, and those right after the token, are found before memory is taken; an Empty message takes
    // none, nor does one without options whose payload has at most 16 bytes.
    ensures early { (f : CoapFault) → HasEarlyFault bytes.now f → result ≡ Err f }
    ensures empty { is_empty_message bytes.now ≡ true → IsOk result }
    ensures no_option { (m : Message) → Spells bytes.now m → m.options ≡ [] → length m.payload ≤ 16 → IsOk result }
    ensures reading { MatchResult result
        (λ m. reading_of bytes.now ≡ Ok m)
        (λ f. f ≢ CoapFault.Memory → reading_of bytes.now ≡ Err f) }
{
    decode_in(alloc, Vec::new(alloc), bytes)
}

/// The message that bytes spell, if they spell one.
pub fn message_in(alloc: Global, bytes: &[u8]) -> Result<Option<Message>, AllocError>
    ensures reading { IfOk result (λ m. m ≡ result_ok (reading_of bytes.now)) }
    ensures found { IfOk result (λ r. MatchOption r (Unit {0}) (λ m. Spells bytes.now m)) }
    ensures only { IfOk result (λ r. (m : Message) → Spells bytes.now m → MatchOption r ⊥ (λ n. n ≡ m)) }
{
    match decode(alloc, bytes) {
        Ok(message) => Ok(Some(message)),
        Err(CoapFault::Memory) => Err(AllocError),
        Err(_) => Ok(None),
    }
}

/// Like `decode`, with the options in the memory of this list: `Message::into_spare` gives it back, so that one list
/// can do for many messages.
pub fn decode_in(alloc: Global, spare: Vec<Opt>, bytes: &[u8]) -> Result<Message, CoapFault>
    ensures found { IfOk result (λ m. Spells bytes.now m) }
    ensures only { (m : Message) → Spells bytes.now m → MatchResult result (λ x. x ≡ m) (λ f. f ≡ CoapFault.Memory) }
    ensures fault { IfErr result (λ f. f ≢ CoapFault.Memory → HasFault bytes.now f) }
    ensures refused { (f : CoapFault) → HasFault bytes.now f → IsErrAnd result (λ g. g ≢ CoapFault.Memory → g ≡ f) }
    ensures early { (f : CoapFault) → HasEarlyFault bytes.now f → result ≡ Err f }
    ensures empty { is_empty_message bytes.now ≡ true → IsOk result }
    ensures no_option { (m : Message) → Spells bytes.now m → m.options ≡ [] → length m.payload ≤ 16 → IsOk result }
    ensures reading { MatchResult result
        (λ m. reading_of bytes.now ≡ Ok m)
        (λ f. f ≢ CoapFault.Memory → reading_of bytes.now ≡ Err f) }
{
    read(alloc, spare, bytes)
}

/// Like `decode_in`, without the clauses that there is no other reading.
fn read(alloc: Global, spare: Vec<Opt>, bytes: &[u8]) -> Result<Message, CoapFault>
    ensures found { IfOk result (λ m. Spells bytes.now m) }
    ensures fault { IfErr result (λ f. f ≢ CoapFault.Memory → HasFault bytes.now f) }
    ensures early { (f : CoapFault) → HasEarlyFault bytes.now f → result ≡ Err f }
    ensures empty { is_empty_message bytes.now ≡ true → IsOk result }
    ensures no_option { (payload : List ℕ) → header_fault bytes.now ≡ None
        → drop (4 + token_length bytes.now) bytes.now ≡ payload_bytes payload → length payload ≤ 16 → IsOk result }
{
    let start = start_of(bytes)?;
    let (options, payload) = options_at(alloc, spare, start.rest)?;
    let token = Bytes::from_slice(alloc, start.token)?;
    let payload = Bytes::from_slice(alloc, payload)?;
    Ok(Message::of_parts(
        start.kind,
        start.code,
        start.mid,
        token,
        Options::from_vec(options),
        payload,
    ))
}
