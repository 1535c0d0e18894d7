//! What is printed of the ports of devices.
ghost use Rattle.std.specs.Prelude.{◌≡◌, ◌==◌, ◌++◌, IfOk, OnOk};
ghost use Rattle.std.specs.String.{string_bytes};
ghost use Rattle.command_fleet.specs.Fleet.{free_ports, opening_text, port_line, port_text, ports_text, ready_text};

use crate::in_json::{port_object, ready_object};
use std::alloc::{AllocError, Global};
use std::net::SocketAddr;

/// Of the ports of devices those that the system chose: all, if the port that is asked for is 0, and none otherwise.
pub(crate) fn free_ports(port: u16, ports: &[u16]) -> &[u16]
    ensures { result.now ≡ free_ports (port == 0) ports.now }
{
    if port == 0 { ports } else { &ports[..0] }
}

/// A copy of the ports of devices.
pub(crate) fn copy_ports(alloc: Global, ports: &[u16]) -> Result<Vec<u16>, AllocError>
    ensures { IfOk result (λ copy. copy.items ≡ ports.now) }
{
    let mut copy = Vec::new(alloc);
    copy.extend_from_slice(ports)?;
    Ok(copy)
}

/// The port of a device, as a line.
pub fn port_line(alloc: Global, device: usize, port: u16) -> Result<String, AllocError>
    ensures { IfOk result (λ text. string_bytes text ≡ port_line device port) }
{
    format!(in alloc; "device {device} at port {port}\n")
}

fn port_text(alloc: Global, json: bool, device: usize, port: u16) -> Result<String, AllocError>
    ensures { IfOk result (λ text. string_bytes text ≡ port_text json device port) }
{
    if json {
        port_object(alloc, device, port)
    } else {
        port_line(alloc, device, port)
    }
}

/// Adds the line of a device's port, or its object.
fn put_port(
    alloc: Global,
    out: &mut String,
    json: bool,
    device: usize,
    port: u16,
) -> Result<(), AllocError>
    ensures { OnOk result (string_bytes out.new ≡ string_bytes out.old ++ port_text json device port) }
{
    let line = port_text(alloc, json, device, port)?;
    out.push_str(line.as_str())?;
    Ok(())
}

/// Adds the ports of the first devices, line by line.
fn put_ports(alloc: Global, out: &mut String, json: bool, ports: &[u16]) -> Result<(), AllocError>
    ensures { OnOk result (string_bytes out.new ≡ string_bytes out.old ++ ports_text json 0 ports.now) }
{
    for (device, port) in ports.iter().enumerate() {
        put_port(alloc, out, json, device, *port)?;
    }
    Ok(())
}

/// The object that says that the ports are there, if JSON is asked for.
fn ready_text(
    alloc: Global,
    json: bool,
    devices: usize,
    place: SocketAddr,
) -> Result<String, AllocError>
    ensures { IfOk result (λ text. string_bytes text ≡ ready_text json devices place) }
{
    if json {
        ready_object(alloc, devices, place)
    } else {
        Ok(String::new(alloc))
    }
}

/// What standard output gets once the ports are there, of which the system chose these.
pub(crate) fn opening(
    alloc: Global,
    json: bool,
    devices: usize,
    place: SocketAddr,
    ports: &[u16],
) -> Result<String, AllocError>
    ensures { IfOk result (λ text. string_bytes text ≡ opening_text json devices place ports.now) }
{
    let mut text = ready_text(alloc, json, devices, place)?;
    put_ports(alloc, &mut text, json, ports)?;
    Ok(text)
}
