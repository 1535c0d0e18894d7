//! The file that says at which port each device is.
ghost use Rattle.std.specs.Prelude.{◌≡◌, ◌∷◌, ◌++◌, [], IfErr, IfOk, OnErr, OnOk, option_map};
ghost use Rattle.std.specs.String.{string_bytes};
ghost use Rattle.command_files.specs.Fault.{IsWritingFault};
ghost use Rattle.command_files.specs.Files.{Grows};
ghost use Rattle.command_files.specs.World.{OnlyMakes};
ghost use Rattle.command_fleet.specs.Listing.{AreListedIf, IsUnlisted, listed_line, listed_text};

use command_files::{NewFile, Refusal, World, make};
use octets::Bytes;
use std::alloc::{AllocError, Global};

/// The number of a device, and its port.
pub fn listed_line(alloc: Global, device: usize, port: u16) -> Result<String, AllocError>
    ensures { IfOk result (λ text. string_bytes text ≡ listed_line device port) }
{
    format!(in alloc; "{device} {port}\n")
}

/// Adds the line of a device.
fn put_line(alloc: Global, out: &mut String, device: usize, port: u16) -> Result<(), AllocError>
    ensures { OnOk result (string_bytes out.new ≡ string_bytes out.old ++ listed_line device port) }
{
    let line = listed_line(alloc, device, port)?;
    out.push_str(line.as_str())?;
    Ok(())
}

/// Adds the lines of the first devices.
fn put_lines(alloc: Global, out: &mut String, ports: &[u16]) -> Result<(), AllocError>
    ensures { OnOk result (string_bytes out.new ≡ string_bytes out.old ++ listed_text 0 ports.now) }
{
    for (device, port) in ports.iter().enumerate() {
        put_line(alloc, out, device, *port)?;
    }
    Ok(())
}

/// The lines of devices at these ports.
fn listed_text(alloc: Global, ports: &[u16]) -> Result<String, AllocError>
    ensures { IfOk result (λ text. string_bytes text ≡ listed_text 0 ports.now) }
{
    let mut text = String::new(alloc);
    put_lines(alloc, &mut text, ports)?;
    Ok(text)
}

/// The file of devices at these ports, for the path.
fn list_file<'a>(alloc: Global, path: &'a str, ports: &[u16]) -> Result<NewFile<'a>, AllocError>
    ensures path { IfOk result (λ f. f.path.now ≡ path.entry.now) }
    ensures bytes { IfOk result (λ f. f.bytes ≡ listed_text 0 ports.now) }
{
    let text = listed_text(alloc, ports)?;
    Ok(NewFile {
        path,
        bytes: Bytes::from_vec(text.into_bytes()),
    })
}

/// Makes the file of devices at these ports.
fn list_at<'a, W: World>(
    alloc: Global,
    path: &'a str,
    ports: &[u16],
    world: &mut W,
) -> Result<(), Refusal<'a>>
    ensures listed { OnOk result (Grows (W.seen world.old).made (W.seen world.new).made
        ((record { path = path.entry.now; bytes = listed_text 0 ports.now }) ∷ [])) }
    ensures kept { OnErr result ((W.seen world.new).made ≡ (W.seen world.old).made) }
    ensures refused { IfErr result (λ r. IsWritingFault (W.refuses path.entry.now) r.fault) }
    ensures only { OnlyMakes (W.seen world.old) (W.seen world.new) }
{
    let file = list_file(alloc, path, ports)?;
    make(&Some(file), world)
}

/// Makes the file of devices at these ports, if there is a path.
pub(crate) fn list_ports<'a, W: World>(
    alloc: Global,
    path: Option<&'a str>,
    ports: &[u16],
    world: &mut W,
) -> Result<(), Refusal<'a>>
    ensures listed { OnOk result (AreListedIf (W.seen world.old).made (W.seen world.new).made
        (option_map (λ p. p.now) path.entry) ports.now) }
    ensures kept { OnErr result ((W.seen world.new).made ≡ (W.seen world.old).made) }
    ensures refused { IfErr result (λ r. IsUnlisted W.refuses (option_map (λ p. p.now) path.entry) r.fault) }
    ensures only { OnlyMakes (W.seen world.old) (W.seen world.new) }
{
    match path {
        None => Ok(()),
        Some(path) => list_at(alloc, path, ports, world),
    }
}
