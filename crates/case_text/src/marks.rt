//! How a line begins, and what is read of what stands behind its mark.

ghost use Rattle.std.specs.Prelude.{◌≡◌, ◌≢◌, true, false, MatchOption};
ghost use Rattle.std.specs.Str.{IsUtf8, is_utf8};
ghost use Rattle.scenario_words.specs.declared.cause.Cause.TheVariants as cause;
ghost use Rattle.case_text.specs.declared.fault.Why.TheVariants as why;
ghost use Rattle.case_text.specs.Marks.{Finds, begins, behind, is_headed, text_from};

use crate::fault::Why;
use lwm2m_values::Text;
use scenario_words::{Cause, is_name};
use std::alloc::Global;

/// What stands behind the beginning of a line, where it begins so.
pub(crate) fn behind<'a>(line: &'a [u8], mark: &str) -> Option<&'a [u8]>
    ensures { MatchOption result (begins mark.now line.now ≡ false)
        (λ x. (begins mark.now line.now ≡ true) × (x.now ≡ behind mark.now line.now)) }
{
    line.strip_prefix(mark.as_bytes())
}

pub(crate) fn begins(line: &[u8], mark: &str) -> bool
    ensures { result ≡ begins mark.now line.now }
{
    behind(line, mark).is_some()
}

/// What stands behind a name with which a line begins, where its first word, which is given, is this name.
pub(crate) fn headed<'a>(word: &[u8], line: &'a [u8], name: &str) -> Option<&'a [u8]>
    ensures { MatchOption result (is_headed name.now word.now line.now ≡ false)
        (λ x. (is_headed name.now word.now line.now ≡ true) × (x.now ≡ behind name.now line.now)) }
{
    if !is_name(word, name) {
        return None;
    }
    behind(line, name)
}

/// Want of memory, or why a line is refused.
pub(crate) fn unless_memory(met: Cause, refused: Why) -> Why
    ensures memory { met ≡ cause.Memory → result ≡ why.Memory }
    ensures other { result ≢ why.Memory → (met ≢ cause.Memory) × (result ≡ refused) }
{
    match met {
        Cause::Memory => Why::Memory,
        _ => refused,
    }
}

/// The text that bytes are, where they are UTF-8.
fn utf8_of(bytes: &[u8]) -> Option<&str>
    ensures { MatchOption result (¬ (IsUtf8 bytes.now)) (λ s. (s.now ≡ bytes.now) × IsUtf8 bytes.now) }
{
    str::from_utf8(bytes).ok()
}

/// The same, by the test of UTF-8.
pub(crate) fn checked(bytes: &[u8]) -> Option<&str>
    ensures { MatchOption result (is_utf8 bytes.now ≡ false) (λ s. (s.now ≡ bytes.now) × (is_utf8 bytes.now ≡ true)) }
{
    utf8_of(bytes)
}

/// A copy of bytes that have to be text.
pub(crate) fn text_from(alloc: Global, bytes: &[u8]) -> Result<Text, Why>
    ensures { Finds (λ t. t) result (text_from bytes.now) }
{
    match checked(bytes) {
        Some(text) => Ok(Text::from_str(alloc, text)?),
        None => Err(Why::NotText),
    }
}
