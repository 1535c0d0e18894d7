ghost use Rattle.std.specs.Prelude.{◌≡◌, ◌∷◌, [], if◌then◌else◌};
ghost use Rattle.std.specs.List.{list_all};
ghost use Rattle.scenario_words.specs.declared.cause.Cause.TheVariants.{Token};
ghost use Rattle.scenario_words.specs.Words.{words, parts};
ghost use Rattle.scenario_words.specs.Reading.{Reads, word_by};
ghost use Rattle.scenario_words.specs.Number.{is_number, number_of};
ghost use Rattle.scenario_words.specs.PathWord.{path_of, path_of_numbers, path_of_parts, link_of};

use crate::cause::Cause;
use crate::cutting::{cut, last};
use crate::line::first_word;
use crate::number::{is_number, number_of};
use object_defs::Path;

/// Whether each part between bytes that are this one is a number.
fn are_numbers(bytes: &[u8], byte: u8) -> bool
    ensures { result ≡ list_all is_number (parts byte bytes.now) }
{
    let mut left = Some(bytes);
    while let Some(bytes) = left {
        let (part, rest) = cut(bytes, byte);
        if !is_number(part) {
            return false;
        }
        left = rest;
    }
    true
}

/// A number of 16 bits.
fn half_of(word: &[u8]) -> Result<u16, Cause>
    ensures { Reads (λ n. n) result (number_of 0 65535 word.now) }
{
    let number = number_of(word, 0, 65535)?;
    Ok(number as u16)
}

/// The path of one to four numbers between slashes.
fn path_of_numbers(numbers: &[u8]) -> Result<Path, Cause>
    ensures { Reads (λ p. p) result (path_of_numbers (parts 47 numbers.now)) }
{
    let (object, rest) = cut(numbers, b'/');
    let Some(rest) = rest else {
        return Ok(Path::Object(half_of(object)?));
    };
    let (instance, rest) = cut(rest, b'/');
    let Some(rest) = rest else {
        return Ok(Path::Instance(half_of(object)?, half_of(instance)?));
    };
    let (resource, rest) = cut(rest, b'/');
    let Some(rest) = rest else {
        return resource_path(object, instance, resource);
    };
    let Some(part) = last(rest, b'/') else {
        return Err(Cause::Token);
    };
    part_path(object, instance, resource, part)
}

fn resource_path(object: &[u8], instance: &[u8], resource: &[u8]) -> Result<Path, Cause>
    ensures { Reads (λ p. p) result (path_of_numbers (object.now ∷ instance.now ∷ resource.now ∷ [])) }
{
    let object = half_of(object)?;
    let instance = half_of(instance)?;
    let resource = half_of(resource)?;
    Ok(Path::Resource(object, instance, resource))
}

fn part_path(object: &[u8], instance: &[u8], resource: &[u8], part: &[u8]) -> Result<Path, Cause>
    ensures { Reads (λ p. p) result (path_of_numbers (object.now ∷ instance.now ∷ resource.now ∷ part.now ∷ [])) }
{
    let object = half_of(object)?;
    let instance = half_of(instance)?;
    let resource = half_of(resource)?;
    let part = half_of(part)?;
    Ok(Path::Part(object, instance, resource, part))
}

/// Why a word is refused one of whose numbers could not be read, for this cause. Where a part does not even have the
/// form of a number it is a `Token` whatever the cause: a wrong form is told before a number out of range.
#[inline(never)]
fn path_fault(numbers: &[u8], cause: Cause) -> Cause
    ensures { result ≡ (if list_all is_number (parts 47 numbers.now) then cause else Token) }
{
    if are_numbers(numbers, b'/') {
        cause
    } else {
        Cause::Token
    }
}

/// The path of what stands after the first slash.
fn path_after_slash(numbers: &[u8]) -> Result<Path, Cause>
    ensures { Reads (λ p. p) result (path_of_parts ([] ∷ parts 47 numbers.now)) }
{
    match path_of_numbers(numbers) {
        Ok(path) => Ok(path),
        Err(cause) => Err(path_fault(numbers, cause)),
    }
}

/// The path of a word.
fn path_of(word: &[u8]) -> Result<Path, Cause>
    ensures { Reads (λ p. p) result (path_of word.now) }
{
    let [b'/', numbers @ ..] = word else {
        return Err(Cause::Token);
    };
    path_after_slash(numbers)
}

/// The first word of the line as a path of one to four numbers from 0 to 65535, and the line after it.
pub fn path(line: &[u8]) -> Result<(Path, &[u8]), Cause>
    ensures { Reads (λ x. (x.0, words x.1.now)) result (word_by path_of (words line.now)) }
{
    let (word, line) = first_word(line)?;
    let path = path_of(word)?;
    Ok((path, line))
}

/// The two numbers of a link's word, an object's and an instance's.
pub(crate) fn link_of(word: &[u8]) -> Result<(u16, u16), Cause>
    ensures { Reads (λ p. p) result (link_of word.now) }
{
    let (object, rest) = cut(word, b':');
    let Some(rest) = rest else {
        return Err(Cause::Token);
    };
    let Some(instance) = last(rest, b':') else {
        return Err(Cause::Token);
    };
    if !is_number(object) || !is_number(instance) {
        return Err(Cause::Token);
    }
    let object = half_of(object)?;
    let instance = half_of(instance)?;
    Ok((object, instance))
}
