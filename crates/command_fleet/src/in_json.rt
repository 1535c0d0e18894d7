//! The objects of a session in JSON, each in a line of its own.
ghost use Rattle.std.specs.Prelude.{◌≡◌, ◌++◌, IfOk, OnOk};
ghost use Rattle.std.specs.Net.Socket.{socket_ip};
ghost use Rattle.std.specs.Net.Text.{ip_text};
ghost use Rattle.std.specs.String.{string_bytes};
ghost use Rattle.trace_json.specs.Json.{object_json};
ghost use Rattle.trace_json.specs.Writing.{Has64Bits, IsReadAgain, fields_tokens, json_line, tokens_of};
ghost use Rattle.command_fleet.specs.InJson.{counts_fields, done_json, happened_fields, port_json, ready_json};
ghost use Rattle.command_fleet.specs.InJson.{second_json, wire_fields};

use crate::shortfall::Shortfall;
use fleet_lines::Account;
use fleet_link::Counts;
use fleet_wire::Happened;
use json::Writer;
use std::alloc::{AllocError, Global};
use std::net::{IpAddr, SocketAddr};
use trace_json::{end_line, put_number, put_string, text_of};

/// Writes how many datagrams went through ports.
fn put_counts(out: &mut Writer, counts: Counts) -> Result<(), AllocError>
    ensures adds { OnOk result (out.new.tokens ≡ out.old.tokens ++ fields_tokens (counts_fields counts)) }
    ensures before { out.new.before ≡ out.old.before }
    ensures exact { Has64Bits (object_json (counts_fields counts)) }
{
    put_number(out, "received", counts.received)?;
    put_number(out, "sent", counts.sent)?;
    put_number(out, "dropped", counts.dropped)?;
    put_number(out, "lost", counts.lost)?;
    Ok(())
}

/// Writes how often a wire did what.
fn put_wire(out: &mut Writer, happened: Happened) -> Result<(), AllocError>
    ensures adds { OnOk result (out.new.tokens ≡ out.old.tokens ++ fields_tokens (wire_fields happened)) }
    ensures before { out.new.before ≡ out.old.before }
    ensures exact { Has64Bits (object_json (wire_fields happened)) }
{
    put_number(out, "wire_lost", happened.lost)?;
    put_number(out, "wire_twice", happened.twice)?;
    put_number(out, "wire_swapped", happened.swapped)?;
    put_number(out, "wire_late", happened.late)?;
    Ok(())
}

/// Writes how often a wire did what, if there is one.
#[tactic(auto, using(crate::proofs::Objects::no_wire))]
fn put_happened(out: &mut Writer, happened: Option<Happened>) -> Result<(), AllocError>
    ensures adds { OnOk result (out.new.tokens ≡ out.old.tokens ++ fields_tokens (happened_fields happened)) }
    ensures before { out.new.before ≡ out.old.before }
    ensures exact { OnOk result (Has64Bits (object_json (happened_fields happened))) }
{
    match happened {
        None => Ok(()),
        Some(happened) => put_wire(out, happened),
    }
}

/// Writes that a second has come.
#[tactic(auto, unfolding(crate::specs::InJson::second_json))]
fn put_second(out: &mut Writer, second: u64, counts: Counts) -> Result<(), AllocError>
    ensures adds { OnOk result (out.new.tokens ≡ out.old.tokens ++ tokens_of (second_json second counts)) }
    ensures before { out.new.before ≡ out.old.before }
    ensures exact { OnOk result (Has64Bits (second_json second counts)) }
{
    out.begin_object()?;
    put_string(out, "event", "second")?;
    put_number(out, "second", second)?;
    put_counts(out, counts)?;
    out.end_object()?;
    Ok(())
}

/// The line of a second of a session, with what went through the ports until then.
#[tactic(auto, using(crate::proofs::Objects::second_again))]
pub fn second_line(alloc: Global, second: u64, counts: Counts) -> Result<String, AllocError>
    ensures line { IfOk result (λ t. string_bytes t ≡ json_line (second_json second counts)) }
    ensures read_again { OnOk result (IsReadAgain (second_json second counts)) }
{
    let mut writer = Writer::new(Vec::new(alloc));
    put_second(&mut writer, second, counts)?;
    let bytes = end_line(writer)?;
    Ok(text_of(bytes))
}

/// Writes that a session is over, and what did not last as long.
#[tactic(auto, unfolding(crate::specs::InJson::done_json))]
fn put_done(
    out: &mut Writer,
    seconds: u64,
    devices: usize,
    account: Account,
    shortfall: Shortfall,
) -> Result<(), AllocError>
    ensures adds { OnOk result (out.new.tokens
        ≡ out.old.tokens ++ tokens_of (done_json seconds devices account shortfall)) }
    ensures before { out.new.before ≡ out.old.before }
    ensures exact { OnOk result (Has64Bits (done_json seconds devices account shortfall)) }
{
    out.begin_object()?;
    put_string(out, "event", "done")?;
    put_number(out, "seconds", seconds)?;
    put_number(out, "devices", devices as u64)?;
    put_counts(out, account.counts)?;
    put_happened(out, account.happened)?;
    put_number(out, "ended", shortfall.ended as u64)?;
    put_number(out, "cut", shortfall.cut as u64)?;
    out.end_object()?;
    Ok(())
}

/// The line of the end of a session, with what did not last as long.
#[tactic(auto, using(crate::proofs::Objects::done_again))]
pub fn done_object(
    alloc: Global,
    seconds: u64,
    devices: usize,
    account: Account,
    shortfall: Shortfall,
) -> Result<String, AllocError>
    ensures line { IfOk result (λ t. string_bytes t ≡ json_line (done_json seconds devices account shortfall)) }
    ensures read_again { OnOk result (IsReadAgain (done_json seconds devices account shortfall)) }
{
    let mut writer = Writer::new(Vec::new(alloc));
    put_done(&mut writer, seconds, devices, account, shortfall)?;
    let bytes = end_line(writer)?;
    Ok(text_of(bytes))
}

/// Writes at which port a device is.
#[tactic(auto, unfolding(crate::specs::InJson::port_json))]
fn put_port(out: &mut Writer, device: usize, port: u16) -> Result<(), AllocError>
    ensures adds { OnOk result (out.new.tokens ≡ out.old.tokens ++ tokens_of (port_json device port)) }
    ensures before { out.new.before ≡ out.old.before }
    ensures exact { OnOk result (Has64Bits (port_json device port)) }
{
    out.begin_object()?;
    put_string(out, "event", "port")?;
    put_number(out, "device", device as u64)?;
    put_number(out, "port", u64::from(port))?;
    out.end_object()?;
    Ok(())
}

/// The line of a port that the system chose for a device.
#[tactic(auto, using(crate::proofs::Objects::port_again))]
pub fn port_object(alloc: Global, device: usize, port: u16) -> Result<String, AllocError>
    ensures line { IfOk result (λ t. string_bytes t ≡ json_line (port_json device port)) }
    ensures read_again { OnOk result (IsReadAgain (port_json device port)) }
{
    let mut writer = Writer::new(Vec::new(alloc));
    put_port(&mut writer, device, port)?;
    let bytes = end_line(writer)?;
    Ok(text_of(bytes))
}

fn address_text(alloc: Global, ip: IpAddr) -> Result<String, AllocError>
    ensures { IfOk result (λ t. string_bytes t ≡ ip_text ip) }
{
    format!(in alloc; "{ip}")
}

/// Writes that the ports are there.
#[tactic(auto, unfolding(crate::specs::InJson::ready_json))]
fn put_ready(
    out: &mut Writer,
    devices: usize,
    place: SocketAddr,
    address: &str,
) -> Result<(), AllocError>
    requires { address.now ≡ ip_text (socket_ip place) }
    ensures adds { OnOk result (out.new.tokens ≡ out.old.tokens ++ tokens_of (ready_json devices place)) }
    ensures before { out.new.before ≡ out.old.before }
    ensures exact { OnOk result (Has64Bits (ready_json devices place)) }
{
    out.begin_object()?;
    put_number(out, "version", 1)?;
    put_string(out, "event", "ready")?;
    put_number(out, "devices", devices as u64)?;
    put_string(out, "address", address)?;
    put_number(out, "port", u64::from(place.port()))?;
    out.end_object()?;
    Ok(())
}

/// The line that all ports are there.
#[tactic(auto, using(crate::proofs::Objects::ready_again))]
pub fn ready_object(alloc: Global, devices: usize, place: SocketAddr) -> Result<String, AllocError>
    ensures line { IfOk result (λ t. string_bytes t ≡ json_line (ready_json devices place)) }
    ensures read_again { OnOk result (IsReadAgain (ready_json devices place)) }
{
    let address = address_text(alloc, place.ip())?;
    let mut writer = Writer::new(Vec::new(alloc));
    put_ready(&mut writer, devices, place, address.as_str())?;
    let bytes = end_line(writer)?;
    Ok(text_of(bytes))
}
