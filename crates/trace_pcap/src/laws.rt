//! What follows from the definitions, for their readers. The calls do nothing; their contracts are the laws.

ghost use Rattle.std.specs.Prelude.{◌≡◌, ◌+◌, ℕ, List, map};
ghost use Rattle.device_template.specs.Template.{Template};
ghost use Rattle.scenario_image.specs.declared.step.Step.{Step};
ghost use Rattle.scenario_image.specs.Scenario.{Scenario};
ghost use Rattle.scenario_image.specs.Play.{state_at, IsRowOf};
ghost use Rattle.trace_file.specs.declared.entry.Entry.{Entry};
ghost use Rattle.udp_capture.specs.Capture.{IsCapture};
ghost use Rattle.trace_pcap.specs.Packets.{trace_packets};
ghost use Rattle.trace_pcap.specs.Transmissions.{second_after, transmissions};

/// The packets of a trace carry its datagrams, in their order.
pub fn packets_have_datagrams()
    ensures { (s : Scenario) (es : List Entry) → map (λ p. p.payload) (trace_packets s es)
        ≡ map (λ t. t.bytes) (transmissions s es) }
{}

/// Traces with the same capture file have the same datagrams, between the same devices and servers, at the same
/// seconds, in the same order.
pub fn one_trace()
    ensures { (bytes : List ℕ) (s : Scenario) (es : List Entry) (r : Scenario) (fs : List Entry)
        → IsCapture bytes (trace_packets s es) → IsCapture bytes (trace_packets r fs)
        → transmissions s es ≡ transmissions r fs }
{}

/// The second of a packet is that of the device's clock after the step.
pub fn seconds_are_clocks()
    ensures { (s : Scenario) (e : Entry) (class : Template) (steps : List Step) → IsRowOf s e.device class steps
        → second_after s e ≡ (state_at class steps (e.step + 1)).kept.clock }
{}
