use case_text::DeviceNumbers;
use device_machine::Outputs;
use lwm2m_values::{Text, Value};
use octets::Bytes;

/// What came where a case states something else.
#[derive(Drop)]
pub enum Came {
    /// The item cannot be: no device has begun, the row has no such step, or the copy refuses the event.
    Nowhere,
    /// What the device outputs there.
    Outputs(Outputs),
    /// The value that the device has there, if it has one.
    Value(Option<Value>),
    /// The second that its clock shows.
    Clock(u64),
    /// How many observations it has.
    Observations(u64),
    /// The first second in which it sends or removes something by itself, if there is one.
    Due(Option<u64>),
    /// How a run ends.
    Run {
        /// How many entries it has.
        entries: u64,
        /// The devices that wait after them; none where each has made all its steps.
        waiting: DeviceNumbers,
    },
    /// An image of a scenario.
    Image(Bytes),
    /// A trace file.
    Trace(Bytes),
    /// The entries have no trace file: they are too large for one.
    TooLarge,
    /// The canonical text of a scenario.
    Text(Text),
    /// A recorded trace is a run of the scenario.
    IsRun,
    /// It is none: this entry, counted from 0, is the first that does not follow.
    NotARun(u64),
    /// A file is refused so, in the words of `lwbench`.
    Fault(Text),
    /// A file is an image, or a text, of a scenario with that many.
    Ok {
        /// Classes.
        classes: u64,
        /// Devices.
        devices: u64,
        /// Steps of all devices.
        steps: u64,
    },
    /// A file is a trace file with that many entries.
    OkEntries(u64),
    /// The entries of a trace file, a line each.
    Entries(Text),
}
