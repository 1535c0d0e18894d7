//! What the words of `fleet` ask for of the wire between devices and their ports.
ghost use Rattle.std.specs.Prelude.{IfNone, IfSome};
ghost use Rattle.clap.specs.Words.{found_of, rows_of};
ghost use Rattle.command_line.specs.Words.{AsksForWire};
ghost use Rattle.command_line.specs.Inside.{LacksWire};

use crate::values::{number, value_of};
use clap::ArgMatches;

/// Which datagrams are lost, doubled, exchanged and delayed between the devices and their ports. Each choice is a
/// share, as `10%`, or a list of the numbers that datagrams of a device have, as `2,5-6`.
#[derive(Clone, Copy)]
pub struct AskedWire<'a> {
    /// Those that are lost on their way to a device.
    pub lose_in: Option<&'a str>,
    /// Those that are lost on their way from a device.
    pub lose_out: Option<&'a str>,
    pub twice: Option<&'a str>,
    pub swap: Option<&'a str>,
    pub late: Option<&'a str>,
    /// For how many seconds a datagram is held that is late or waits for the next one.
    pub late_by: u32,
    /// What all that is drawn for shares begins from.
    pub seed: u32,
}

/// The wire that the words of `fleet` ask for.
pub(crate) fn wire_of<'a>(found: &ArgMatches<'a>) -> Option<AskedWire<'a>>
    ensures some { IfSome result (AsksForWire (rows_of (found_of found.now))) }
    ensures none { IfNone result (LacksWire (rows_of (found_of found.now))) }
{
    Some(AskedWire {
        lose_in: value_of(found, "lose-in"),
        lose_out: value_of(found, "lose-out"),
        twice: value_of(found, "twice"),
        swap: value_of(found, "swap"),
        late: value_of(found, "late"),
        late_by: number(found, "late-by")?,
        seed: number(found, "seed")?,
    })
}
