//! Words of which one of some names may stand: operations, choices of two, and one name alone.

ghost use Rattle.std.specs.Prelude.{◌≡◌};
ghost use Rattle.scenario_words.specs.Words.{words};
ghost use Rattle.scenario_words.specs.Reading.{Gives, word_by};
ghost use Rattle.scenario_statements.specs.Grammar.{check_of_name, one_of, ops_named};

use object_defs::Ops;
use scenario_words::{Cause, first_word, is_name, name_fault};
use std::alloc::Global;

fn ops_named(alloc: Global, word: &[u8]) -> Result<Ops, Cause>
    ensures { Gives (λ o. o) result (ops_named word.now) }
{
    if is_name(word, "r") {
        Ok(Ops::R)
    } else if is_name(word, "w") {
        Ok(Ops::W)
    } else if is_name(word, "rw") {
        Ok(Ops::RW)
    } else if is_name(word, "e") {
        Ok(Ops::E)
    } else {
        Err(name_fault(alloc, word))
    }
}

/// The first word of the line as the operations of a resource, and the line after it.
pub(crate) fn ops(alloc: Global, line: &[u8]) -> Result<(Ops, &[u8]), Cause>
    ensures { Gives (λ x. (x.0, words x.1.now)) result (word_by ops_named (words line.now)) }
{
    let (word, line) = first_word(line)?;
    let ops = ops_named(alloc, word)?;
    Ok((ops, line))
}

fn one_of(alloc: Global, first: &str, second: &str, word: &[u8]) -> Result<bool, Cause>
    ensures { Gives (λ b. b) result (one_of first.now second.now word.now) }
{
    if is_name(word, first) {
        Ok(true)
    } else if is_name(word, second) {
        Ok(false)
    } else {
        Err(name_fault(alloc, word))
    }
}

/// Whether the first word of the line is the first of two names, of which it has to be one, and the line after it.
pub(crate) fn choice<'a>(
    alloc: Global,
    first: &str,
    second: &str,
    line: &'a [u8],
) -> Result<(bool, &'a [u8]), Cause>
    ensures { Gives (λ x. (x.0, words x.1.now)) result (word_by (one_of first.now second.now) (words line.now)) }
{
    let (word, line) = first_word(line)?;
    let chosen = one_of(alloc, first, second, word)?;
    Ok((chosen, line))
}

fn named(alloc: Global, name: &str, word: &[u8]) -> Result<(), Cause>
    ensures { Gives (λ u. u) result (check_of_name name.now word.now) }
{
    if is_name(word, name) {
        Ok(())
    } else {
        Err(name_fault(alloc, word))
    }
}

/// The line after its first word, which has to be this name.
pub(crate) fn after_name<'a>(alloc: Global, name: &str, line: &'a [u8]) -> Result<&'a [u8], Cause>
    ensures { Gives (λ rest. (tt, words rest.now)) result (word_by (check_of_name name.now) (words line.now)) }
{
    let (word, line) = first_word(line)?;
    named(alloc, name, word)?;
    Ok(line)
}
