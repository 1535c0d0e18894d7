use crate::digits::Digits;
use lwm2m_values::Text;

/// What a line states of a file, after its `=>` or `=/>`.
#[derive(Drop)]
pub enum FileStated {
    /// `ok C classes D devices S steps`: it is the image, or the text, of a scenario with this many.
    Ok {
        /// The classes.
        classes: u64,
        /// The devices.
        devices: u64,
        /// The steps of all devices.
        steps: u64,
    },
    /// `ok E entries`: it is a trace file of this many entries.
    OkEntries(u64),
    /// `fault WORDS`: it is refused so, in the words of `lwbench` (`cut`, `bad field at 8`, `line 3 range`), which one
    /// space parts.
    Fault(Text),
    /// `fault or ok`: it is refused, or ok.
    FaultOrOk,
    /// `image BYTES`: the image of the scenario that was found.
    Image(Digits),
    /// `trace BYTES`: the trace file of the entries that were found.
    Trace(Digits),
    /// `text`: the canonical text of the scenario that was found is the lines stated below.
    Text,
    /// `entries`: the entries that were found are the lines stated below.
    Entries,
    /// `=| LINE`, `=| ENTRY`: a line of them.
    TextLine(Text),
}
