//! What the words of `fleet` ask for.
ghost use Rattle.std.specs.Prelude.{◌≡◌, [], codes, map, unwrap_or, IfNone, IfOk, IfSome};
ghost use Rattle.clap.specs.Words.{all_of, found_of, rows_of};
ghost use Rattle.command_line.specs.Words.{AsksForFleet};
ghost use Rattle.command_line.specs.Inside.{LacksFleet};

use crate::values::{flag, number, small_number, value_of, values_if};
use crate::verdict_words::{AskedVerdict, verdict_of};
use crate::wire_words::{AskedWire, wire_of};
use clap::ArgMatches;
use std::alloc::{AllocError, Global};

/// The devices of a scenario, which receive the datagrams of the network, each at a port of its own, and answer them.
#[derive(Drop)]
pub struct AskedFleet<'a> {
    /// The path of the scenario's text or image.
    pub file: &'a str,
    /// The UDP port of the first device; each device has the next one. 0: each has a port that the system chooses.
    pub port: u16,
    /// For how many seconds they go on; where it is not given, until they are asked to end.
    pub seconds: Option<u32>,
    /// Which rows have a device, as `A-B`; where it is not given, all have.
    pub devices: Option<&'a str>,
    /// How many devices there are, 1 to 16,384: the rows over and over; where it is not given, each row is one.
    pub copies: Option<u16>,
    /// Whether the steps of the rows happen as seconds pass.
    pub play: bool,
    /// Whether a row of which all steps have happened begins anew; its steps then happen, asked for or not.
    pub repeat: bool,
    /// The IP address of the ports.
    pub bind: &'a str,
    /// Where servers are, each as `S=ADDRESS` or `S=ADDRESS:PORT`.
    pub servers: Vec<&'a str>,
    /// Where the list of the devices' ports goes, if anywhere.
    pub ports: Option<&'a str>,
    /// What happens to datagrams between the devices and their ports.
    pub wire: AskedWire<'a>,
    /// Where the image of what happened goes, if anywhere.
    pub save: Option<&'a str>,
    /// What servers have to send; the session ends when that is settled, and is judged by it.
    pub verdict: AskedVerdict<'a>,
    /// Whether the status tells that a datagram was dropped or lost.
    pub strict: bool,
    /// Whether each datagram that a device receives or sends is told.
    pub show: bool,
    /// Whether what happened is told as JSON Lines.
    pub json: bool,
}

/// The devices that the words of `fleet` ask for, where their servers are these.
fn fleet_with<'a>(found: &ArgMatches<'a>, servers: Vec<&'a str>) -> Option<AskedFleet<'a>>
    requires { unwrap_or (all_of (codes "server") (rows_of (found_of found.now))) [] ≡ map (λ w. w.now) servers.items }
    ensures some { IfSome result (AsksForFleet (codes "fleet", rows_of (found_of found.now))) }
    ensures none { IfNone result (LacksFleet (rows_of (found_of found.now))) }
{
    Some(AskedFleet {
        file: value_of(found, "FILE")?,
        port: small_number(found, "PORT")?,
        seconds: number(found, "seconds"),
        devices: value_of(found, "devices"),
        copies: small_number(found, "copies"),
        play: flag(found, "play") || flag(found, "loop"),
        repeat: flag(found, "loop"),
        bind: value_of(found, "bind")?,
        servers,
        ports: value_of(found, "ports"),
        wire: wire_of(found)?,
        save: value_of(found, "save"),
        verdict: verdict_of(found)?,
        strict: flag(found, "strict"),
        show: flag(found, "show"),
        json: flag(found, "json"),
    })
}

/// The devices that the words of `fleet` ask for.
pub(crate) fn fleet_of<'a>(
    alloc: Global,
    found: &ArgMatches<'a>,
) -> Result<Option<AskedFleet<'a>>, AllocError>
    ensures some { IfOk result (λ o. IfSome o (AsksForFleet (codes "fleet", rows_of (found_of found.now)))) }
    ensures none { IfOk result (λ o. IfNone o (LacksFleet (rows_of (found_of found.now)))) }
{
    let servers = values_if(alloc, found, "server")?;
    Ok(fleet_with(found, servers))
}
