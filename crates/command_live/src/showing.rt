//! A wire whose datagrams are printed as they go over it, for a person who watches.
ghost use Rattle.std.specs.Prelude.{IfErr, OnOk};
ghost use Rattle.std.specs.Io.KnownBytes.{Appends};
ghost use Rattle.command_files.specs.Files.{IsFailure};
ghost use Rattle.command_live.specs.Live.{told_while};
ghost use Rattle.trace_text.specs.Datagrams.{arrival_text, sent_text};

use command_files::Output;
use command_files::files::FileFault;
use live_link::{Packet, Wire, WireFault};
use std::alloc::Global;
use trace_text::{arrival_text, sent_text};

/// Another wire, which fails as well where a datagram can't be printed. It tells what the other tells, until then.
#[derive(Drop)]
pub struct ShownWire<'a, W: Wire + Drop, O: Output> {
    /// For the lines.
    pub alloc: Global,
    /// The other wire.
    pub wire: W,
    /// Where the lines go.
    pub output: &'a mut O,
    /// Why a datagram was not printed, if one was not.
    pub fault: Option<FileFault>,
}

/// Prints the lines of a datagram that was received, which are those of `trace_text`. That it is printed when it
/// arrives is read.
pub fn show_arrival<O: Output>(
    alloc: Global,
    packet: &Packet,
    output: &mut O,
) -> Result<(), FileFault>
    ensures printed { OnOk result (Appends (O.taken output.old) (O.taken output.new)
        (arrival_text packet.now.server packet.now.bytes)) }
    ensures failed { IfErr result (IsFailure (O.refuses (arrival_text packet.now.server packet.now.bytes))) }
{
    match arrival_text(alloc, packet.server, packet.bytes.as_slice()) {
        Ok(text) => output.print(text.as_str()),
        Err(_) => Err(FileFault::Memory),
    }
}

/// Prints the lines of a datagram that was sent, which are those of `trace_text`. That it is printed when it is sent is
/// read.
pub fn show_sent<O: Output>(
    alloc: Global,
    server: u16,
    bytes: &[u8],
    output: &mut O,
) -> Result<(), FileFault>
    ensures printed { OnOk result (Appends (O.taken output.old) (O.taken output.new)
        (sent_text server bytes.now)) }
    ensures failed { IfErr result (IsFailure (O.refuses (sent_text server bytes.now))) }
{
    match sent_text(alloc, server, bytes) {
        Ok(text) => output.print(text.as_str()),
        Err(_) => Err(FileFault::Memory),
    }
}

impl<W: Wire + Drop, O: Output> Wire for ShownWire<'_, W, O> {
    ghost told = { λ w. told_while w.fault (W.told w.wire) };

    #[tactic(auto, using(crate::proofs::Shown::passed_on, crate::proofs::Shown::silent))]
    fn receive(&mut self) -> Result<Option<Packet>, WireFault> {
        let Some(packet) = self.wire.receive()? else {
            return Ok(None);
        };
        match show_arrival(self.alloc, &packet, self.output) {
            Ok(()) => Ok(Some(packet)),
            Err(fault) => {
                self.fault = Some(fault);
                Err(WireFault::Failed)
            }
        }
    }

    #[tactic(auto, using(crate::proofs::Shown::passed_on, crate::proofs::Shown::silent))]
    fn send(&mut self, server: u16, bytes: &[u8]) -> Result<(), WireFault> {
        self.wire.send(server, bytes)?;
        match show_sent(self.alloc, server, bytes, self.output) {
            Ok(()) => Ok(()),
            Err(fault) => {
                self.fault = Some(fault);
                Err(WireFault::Failed)
            }
        }
    }
}
