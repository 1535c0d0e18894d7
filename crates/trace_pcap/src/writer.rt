//! What writes the packets of a trace, entry by entry. Where memory runs out, some bytes may have been written.

ghost use Rattle.std.specs.Prelude.{◌≡◌, ◌+◌, ◌∷◌, ◌≤◌, [], false, length, min, OnOk};
ghost use Rattle.std.specs.List.{flat_map, list_any};
ghost use Rattle.std.specs.Option.{option_copied};
ghost use Rattle.udp_capture.specs.Capture.{most_payload};
ghost use Rattle.trace_pcap.specs.Packets.{is_long};
ghost use Rattle.trace_pcap.specs.Transmissions.{arrival, received_transmission, sending, sent_transmission};
ghost use Rattle.trace_pcap.specs.Written.{AreWritten};

use crate::ends::{device_end, server_end};
use device_machine::{Event, Output};
use scenario_image::Step;
use std::alloc::AllocError;
use udp_capture::{Envelope, put_packet};

/// The bytes so far, and the microseconds of the next packet.
#[derive(Drop)]
pub(crate) struct Writer {
    /// The bytes of the file so far.
    pub out: Vec<u8>,
    /// How many packets were written, or 999,999 where there were more.
    pub microseconds: u32,
}

/// One more, up to 999,999.
fn next_of(microseconds: u32) -> u32
    ensures { result ≡ min (microseconds + 1) 999999 }
{
    if microseconds < 999_999 {
        microseconds + 1
    } else {
        999_999
    }
}

impl Writer {
    /// Writes a datagram that a device receives.
    fn put_received(
        &mut self,
        second: u32,
        device: u16,
        server: u16,
        bytes: &[u8],
    ) -> Result<(), AllocError>
        requires { length bytes.now ≤ most_payload }
        ensures { OnOk result (AreWritten self.old self.new
            (received_transmission second device server bytes.now ∷ [])) }
    {
        let envelope = Envelope {
            seconds: second,
            microseconds: self.microseconds.min(999_999),
            source: server_end(server),
            destination: device_end(device),
        };
        put_packet(&mut self.out, envelope, bytes)?;
        self.microseconds = next_of(self.microseconds);
        Ok(())
    }

    /// Writes a datagram that a device sends.
    fn put_sent(
        &mut self,
        second: u32,
        device: u16,
        server: u16,
        bytes: &[u8],
    ) -> Result<(), AllocError>
        requires { length bytes.now ≤ most_payload }
        ensures { OnOk result (AreWritten self.old self.new (sent_transmission second device server bytes.now ∷ [])) }
    {
        let envelope = Envelope {
            seconds: second,
            microseconds: self.microseconds.min(999_999),
            source: device_end(device),
            destination: server_end(server),
        };
        put_packet(&mut self.out, envelope, bytes)?;
        self.microseconds = next_of(self.microseconds);
        Ok(())
    }

    /// Writes the datagram that arrives in a step, if one does.
    pub(crate) fn put_arrival(
        &mut self,
        second: u32,
        device: u16,
        step: Option<&Step>,
    ) -> Result<(), AllocError>
        requires { list_any is_long (arrival second device (option_copied step)) ≡ false }
        ensures { OnOk result (AreWritten self.old self.new (arrival second device (option_copied step.entry))) }
    {
        match step {
            Some(Step::Event(Event::Recv { server, bytes })) => {
                self.put_received(second, device, *server, bytes.as_slice())
            }
            Some(
                Step::Event(Event::Put { .. } | Event::Firmware(_) | Event::Tick(_))
                | Step::Post(_)
                | Step::Need(_, _),
            )
            | None => Ok(()),
        }
    }

    /// Writes the datagram of an output, if it is one.
    fn put_output(&mut self, second: u32, device: u16, output: &Output) -> Result<(), AllocError>
        requires { list_any is_long (sending second device output.now) ≡ false }
        ensures { OnOk result (AreWritten self.old self.new (sending second device output.now)) }
    {
        match output {
            Output::Send { server, bytes } => {
                self.put_sent(second, device, *server, bytes.as_slice())
            }
            Output::Act(_) => Ok(()),
        }
    }

    /// Writes the datagrams of outputs, in their order.
    pub(crate) fn put_outputs(
        &mut self,
        second: u32,
        device: u16,
        outputs: &[Output],
    ) -> Result<(), AllocError>
        requires { list_any is_long (flat_map (sending second device) outputs.now) ≡ false }
        ensures { OnOk result (AreWritten self.old self.new (flat_map (sending second device) outputs.now)) }
    {
        for output in outputs {
            self.put_output(second, device, output)?;
        }
        Ok(())
    }
}
