//! What a device outputs goes through its port.
ghost use Rattle.std.specs.Prelude.{◌≡◌, ◌∷◌, [], ℕ};
ghost use Rattle.live_link.specs.Live.{packets_in};
ghost use Rattle.live_link.specs.Wire.{AreRead};
ghost use Rattle.fleet_link.specs.Traffic.{Carries, at_port, sent_all};

use crate::ports::Ports;
use device_machine::Output;

/// Sends the datagram of an output, if it is one. What a device does beside sending goes through no port.
fn send_one<P: Ports>(ports: &mut P, device: usize, output: &Output)
    ensures told { (e : ℕ) → Carries (P.told ports.old e) (P.told ports.new e)
        (at_port device e (sent_all (packets_in (output.now ∷ [])))) }
    ensures fixed { P.fixed ports.new ≡ P.fixed ports.old }
    ensures asked { AreRead (P.asked ports.old) (P.asked ports.new) [] }
{
    match output {
        Output::Send { server, bytes } => ports.send(device, *server, bytes.as_slice()),
        Output::Act(_) => {}
    }
}

/// Sends the datagrams among the outputs of a device, in order.
pub(crate) fn send_all<P: Ports>(ports: &mut P, device: usize, outputs: &[Output])
    ensures told { (e : ℕ) → Carries (P.told ports.old e) (P.told ports.new e)
        (at_port device e (sent_all (packets_in outputs.now))) }
    ensures fixed { P.fixed ports.new ≡ P.fixed ports.old }
    ensures asked { AreRead (P.asked ports.old) (P.asked ports.new) [] }
{
    for output in outputs {
        send_one(ports, device, output);
    }
}
