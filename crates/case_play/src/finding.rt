use lwm2m_values::Text;
use scenario_image::Scenario;
use trace_file::Entries;

/// What is found in a file.
#[derive(Drop)]
pub enum Finding {
    /// A scenario: the file is its image, or a text of it.
    Scenario(Scenario),
    /// Entries: the file is their trace file.
    Entries(Entries),
    /// The file is refused so, in the words of `lwbench`.
    Fault(Text),
}
