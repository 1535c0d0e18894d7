//! What the words of `fleet` ask for of expectations.
ghost use Rattle.std.specs.Prelude.{◌≡◌, IfNone, IfSome};
ghost use Rattle.clap.specs.Words.{found_of, rows_of};
ghost use Rattle.command_line.specs.Words.{AsksForVerdict};
ghost use Rattle.command_line.specs.Inside.{LacksVerdict};

use crate::values::value_of;
use clap::ArgMatches;

/// What servers have to send in a session that is saved.
#[derive(Clone, Copy)]
pub struct AskedVerdict<'a> {
    /// The path of the file of expectations, if there is one.
    pub file: Option<&'a str>,
    /// Where the JUnit report goes, if anywhere.
    pub junit: Option<&'a str>,
}

/// The verdict that the words ask for; none where `--expect` lacks `--save`, or `--junit` lacks `--expect`.
pub(crate) fn verdict_of<'a>(found: &ArgMatches<'a>) -> Option<AskedVerdict<'a>>
    ensures some { IfSome result (AsksForVerdict (rows_of (found_of found.now))) }
    ensures none { IfNone result (LacksVerdict (rows_of (found_of found.now))) }
{
    let save = value_of(found, "save");
    let file = value_of(found, "expect");
    let junit = value_of(found, "junit");
    match (save, file, junit) {
        (_, None, None) | (Some(_), Some(_), _) => Some(AskedVerdict { file, junit }),
        _ => None,
    }
}
