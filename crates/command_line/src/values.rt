//! The values of arguments that `clap` found.
ghost use Rattle.std.specs.Prelude.{◌≡◌, [], map, option_map, unwrap_or, IfOk};
ghost use Rattle.clap.specs.Words.{all_of, first_of, found_of, one_of, rows_of};
ghost use Rattle.command_line.specs.Words.{IsOptionalNumber, is_set};

use clap::ArgMatches;
use std::alloc::{AllocError, Global};

/// The value of an argument.
pub(crate) fn value_of<'a>(found: &ArgMatches<'a>, id: &str) -> Option<&'a str>
    ensures { option_map (λ s. s.now) result ≡ first_of id.now (rows_of (found_of found.now)) }
{
    found.get_str(id)
}

/// The values of an argument that may stand several times.
fn values_in<'b, 'a>(found: &'b ArgMatches<'a>, id: &str) -> Option<&'b [&'a str]>
    ensures { option_map (λ s. map (λ v. v.now) s.now) result ≡ all_of id.now (rows_of (found_of found.now)) }
{
    found.get_strs(id)
}

/// A copy of these values.
pub(crate) fn values_of<'a>(
    alloc: Global,
    found: &ArgMatches<'a>,
    id: &str,
) -> Result<Option<Vec<&'a str>>, AllocError>
    ensures { IfOk result (λ o. option_map (λ v. map (λ p. p.now) v.items) o
        ≡ all_of id.now (rows_of (found_of found.now))) }
{
    match values_in(found, id) {
        Some(values) => {
            let mut all = Vec::new(alloc);
            all.extend_from_slice(values)?;
            Ok(Some(all))
        }
        None => Ok(None),
    }
}

/// The values of an argument that may stand several times, and need not stand at all.
pub(crate) fn values_if<'a>(
    alloc: Global,
    found: &ArgMatches<'a>,
    id: &str,
) -> Result<Vec<&'a str>, AllocError>
    ensures { IfOk result (λ v. unwrap_or (all_of id.now (rows_of (found_of found.now))) []
        ≡ map (λ w. w.now) v.items) }
{
    match values_of(alloc, found, id)? {
        Some(values) => Ok(values),
        None => Ok(Vec::new(alloc)),
    }
}

/// The value of an argument as a number of 16 bits, if there is one.
pub(crate) fn small_number(found: &ArgMatches, id: &str) -> Option<u16>
    ensures { IsOptionalNumber 16 (one_of id.now (rows_of (found_of found.now))) result }
{
    found.get_one::<u16>(id)
}

/// The value of an argument as a number of 32 bits, if there is one.
pub(crate) fn number(found: &ArgMatches, id: &str) -> Option<u32>
    ensures { IsOptionalNumber 32 (one_of id.now (rows_of (found_of found.now))) result }
{
    found.get_one::<u32>(id)
}

/// Whether a flag is given.
pub(crate) fn flag(found: &ArgMatches, id: &str) -> bool
    ensures { is_set id.now (rows_of (found_of found.now)) ≡ result }
{
    match value_of(found, id) {
        Some(word) => word == "true",
        None => false,
    }
}
