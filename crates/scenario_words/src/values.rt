ghost use Rattle.std.specs.Prelude.{◌≡◌, ◌≢◌, ◌↔◌, ℕ, List, [], ◌∷◌, slice_index, false, Ok, Err, IfOk, OnOk, IsTrue, ◌++◌};
ghost use Rattle.std.specs.Result.{IsOk};
ghost use Rattle.std.specs.String.{string_bytes};
ghost use Rattle.std.specs.List.{list_all};
ghost use Rattle.std.specs.Char.{is_ascii_graphic};
ghost use Rattle.std.specs.Fmt.{signed_decimal};
ghost use Rattle.lwm2m_values.specs.declared.kind.ValueKind.{ValueKind};
ghost use Rattle.lwm2m_values.specs.Value.{holds_bytes};
ghost use Rattle.scenario_words.specs.declared.cause.Cause.TheVariants.{Missing, Memory};
ghost use Rattle.scenario_words.specs.HexWord.{hex_word};
ghost use Rattle.scenario_words.specs.PathWord.{link_word};
ghost use Rattle.scenario_words.specs.Words.{words};
ghost use Rattle.scenario_words.specs.Reading.{Gives, Reads, word_by};
ghost use Rattle.scenario_words.specs.ValueWords.{name_fault, kind_word, kind_named, value_of, value_at, IsTooLong};
ghost use Rattle.scenario_words.specs.ValueWords.{IsValue, value_word, spelling_of_value};

use crate::cause::Cause;
use crate::hex_words::{bytes_of, hex_word};
use crate::line::{first_word, is_name};
use crate::number::{integer_of, number_of};
use crate::paths::link_of;
use crate::quotes::{put_quoted, text_of};
use itoa::Buffer;
use lwm2m_values::{Value, ValueKind};
use std::alloc::{AllocError, Global};

fn is_graphic(word: &[u8]) -> bool
    ensures { result ≡ list_all is_ascii_graphic word.now }
{
    word.iter().all(|b| b.is_ascii_graphic())
}

/// Why a word is refused where one of some names may stand and it is none of them: `UnknownWord`, or
/// `Token` where it has the wrong form, or `Memory`.
pub fn name_fault(alloc: Global, word: &[u8]) -> Cause
    ensures fault { result ≢ Memory → result ≡ name_fault word.now }
    ensures bare { slice_index word.now 0 ≢ 34 → result ≡ name_fault word.now }
{
    let [b'"', ..] = word else {
        return if is_graphic(word) {
            Cause::UnknownWord
        } else {
            Cause::Token
        };
    };
    match text_of(alloc, word) {
        Ok(_) => Cause::UnknownWord,
        Err(cause) => cause,
    }
}

/// The kind that a word names.
fn kind_named(alloc: Global, word: &[u8]) -> Result<ValueKind, Cause>
    ensures read { Gives (λ k. k) result (kind_named word.now) }
    ensures found { (k : ValueKind) → kind_named word.now ≡ Ok k → result ≡ Ok k }
    ensures bare { slice_index word.now 0 ≢ 34 → Reads (λ k. k) result (kind_named word.now) }
{
    if is_name(word, "text") {
        Ok(ValueKind::Text)
    } else if is_name(word, "integer") {
        Ok(ValueKind::Whole)
    } else if is_name(word, "boolean") {
        Ok(ValueKind::Flag)
    } else if is_name(word, "opaque") {
        Ok(ValueKind::Opaque)
    } else if is_name(word, "time") {
        Ok(ValueKind::Moment)
    } else if is_name(word, "link") {
        Ok(ValueKind::Link)
    } else {
        Err(name_fault(alloc, word))
    }
}

/// The first word of the line as the name of a kind, and the line after it.
pub fn kind(alloc: Global, line: &[u8]) -> Result<(ValueKind, &[u8]), Cause>
    ensures read { Gives (λ x. (x.0, words x.1.now)) result (word_by kind_named (words line.now)) }
    ensures missing { words line.now ≡ [] → result ≡ Err Missing }
    ensures found { (x : ValueKind × List (List ℕ)) → word_by kind_named (words line.now) ≡ Ok x → IsOk result }
    ensures bare { (w : List ℕ) (ws : List (List ℕ)) → words line.now ≡ w ∷ ws → slice_index w 0 ≢ 34
        → Reads (λ x. (x.0, words x.1.now)) result (word_by kind_named (words line.now)) }
{
    let (word, line) = first_word(line)?;
    let kind = kind_named(alloc, word)?;
    Ok((kind, line))
}

/// The value of a kind that a word is.
fn value_of(alloc: Global, kind: ValueKind, word: &[u8]) -> Result<Value, Cause>
    ensures read { Gives (λ v. v) result (value_of kind word.now) }
    ensures fixed { holds_bytes kind ≡ false → Reads (λ v. v) result (value_of kind word.now) }
{
    match kind {
        ValueKind::Text => Ok(Value::Text(text_of(alloc, word)?)),
        ValueKind::Whole => Ok(Value::Whole(integer_of(word)?)),
        ValueKind::Flag => Ok(Value::Flag(number_of(word, 0, 1)? == 1)),
        ValueKind::Opaque => Ok(Value::Opaque(bytes_of(alloc, word)?)),
        ValueKind::Moment => Ok(Value::Moment(integer_of(word)?)),
        ValueKind::Link => {
            let (object, instance) = link_of(word)?;
            Ok(Value::Link(object, instance))
        }
    }
}

/// The first two words of the line as a kind and a value of it, of whatever length, and the line after them. A word
/// that is missing is that fault, whatever memory there is, also of a line with the name of its kind alone (`alone`).
pub fn value(alloc: Global, line: &[u8]) -> Result<(Value, &[u8]), Cause>
    ensures read { Gives (λ x. (x.0, words x.1.now)) result (value_at (words line.now)) }
    ensures missing { words line.now ≡ [] → result ≡ Err Missing }
    ensures fixed { (k : ValueKind) (ws : List (List ℕ))
        → word_by kind_named (words line.now) ≡ Ok (k, ws) → holds_bytes k ≡ false
        → Reads (λ x. (x.0, words x.1.now)) result (value_at (words line.now)) }
    ensures alone { (k : ValueKind) → word_by kind_named (words line.now) ≡ Ok (k, []) → result ≡ Err Missing }
{
    let (kind, line) = kind(alloc, line)?;
    let (word, line) = first_word(line)?;
    let value = value_of(alloc, kind, word)?;
    Ok((value, line))
}

/// Whether a value is longer than its kind may be: a text of more than 255 bytes, or more than 1,024 bytes.
pub fn is_too_long(value: &Value) -> bool
    ensures { IsTrue result ↔ IsTooLong value.now }
{
    match value {
        Value::Text(text) => text.as_str().len() > 255,
        Value::Opaque(bytes) => bytes.len() > 1024,
        Value::Whole(_) | Value::Flag(_) | Value::Moment(_) | Value::Link(_, _) => false,
    }
}

/// The name of a kind.
pub fn kind_word(kind: ValueKind) -> &'static str
    ensures { result.now ≡ kind_word kind }
{
    match kind {
        ValueKind::Text => "text",
        ValueKind::Whole => "integer",
        ValueKind::Flag => "boolean",
        ValueKind::Opaque => "opaque",
        ValueKind::Moment => "time",
        ValueKind::Link => "link",
    }
}

/// Writes the two numbers of a link.
fn put_link(out: &mut String, object: u16, instance: u16) -> Result<(), AllocError>
    ensures { OnOk result (string_bytes out.new ≡ string_bytes out.old ++ link_word object instance) }
{
    let mut digits = Buffer::new();
    out.push_str(digits.format(object))?;
    out.push(':')?;
    out.push_str(digits.format(instance))
}

/// Writes bytes in upper-case hex, or `-` for none.
fn put_hex_word(alloc: Global, out: &mut String, bytes: &[u8]) -> Result<(), AllocError>
    ensures { OnOk result (string_bytes out.new ≡ string_bytes out.old ++ hex_word bytes.now) }
{
    let word = hex_word(alloc, bytes)?;
    out.push_str(word.as_str())
}

/// Writes an integer.
fn put_integer(out: &mut String, number: i64) -> Result<(), AllocError>
    ensures { OnOk result (string_bytes out.new ≡ string_bytes out.old ++ signed_decimal number) }
{
    let mut digits = Buffer::new();
    out.push_str(digits.format(number))
}

/// Writes the word of a value, after its kind.
fn put_value_word(alloc: Global, out: &mut String, value: &Value) -> Result<(), AllocError>
    ensures { OnOk result (string_bytes out.new ≡ string_bytes out.old ++ value_word value.now) }
{
    match value {
        Value::Text(text) => put_quoted(out, text.as_str()),
        Value::Whole(number) | Value::Moment(number) => put_integer(out, *number),
        Value::Flag(flag) => out.push_str(if *flag { "1" } else { "0" }),
        Value::Opaque(bytes) => put_hex_word(alloc, out, bytes.as_slice()),
        Value::Link(object, instance) => put_link(out, *object, *instance),
    }
}

/// How many bytes most values take at most, with their kind.
const USUAL_LEN: usize = 32;

fn spelling(alloc: Global, value: &Value) -> Result<String, AllocError>
    ensures { IfOk result (λ s. string_bytes s ≡ spelling_of_value value.now) }
{
    let mut out = String::with_capacity(alloc, USUAL_LEN)?;
    out.push_str(kind_word(value.kind()))?;
    out.push(' ')?;
    put_value_word(alloc, &mut out, value)?;
    Ok(out)
}

/// A value as scenario text has it: its kind and its word, such as `integer 7`. It is read again.
pub fn spell(alloc: Global, value: &Value) -> Result<String, AllocError>
    ensures spelled { IfOk result (λ s. string_bytes s ≡ spelling_of_value value.now) }
    ensures again { IsValue value.now → IfOk result (λ s. value_at (words (string_bytes s)) ≡ Ok (value.now, [])) }
{
    spelling(alloc, value)
}
