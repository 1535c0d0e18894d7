//! Whether entries are the same.

ghost use Rattle.std.specs.Prelude.{◌≡◌, ◌↔◌, IsTrue};

use device_machine::Output;
use trace_file::Entry;

/// Whether two outputs are the same.
fn same_output(a: &Output, b: &Output) -> bool
    ensures { IsTrue result ↔ (a.now ≡ b.now) }
{
    match (a, b) {
        (
            Output::Send { server, bytes },
            Output::Send {
                server: other,
                bytes: others,
            },
        ) => server == other && bytes.as_slice() == others.as_slice(),
        (Output::Act(act), Output::Act(other)) => act == other,
        (Output::Send { .. }, Output::Act(_)) | (Output::Act(_), Output::Send { .. }) => false,
    }
}

/// Whether two lists of outputs are the same.
fn same_outputs(a: &[Output], b: &[Output]) -> bool
    ensures { IsTrue result ↔ (a.now ≡ b.now) }
{
    if a.len() != b.len() {
        return false;
    }
    for (i, output) in a.iter().enumerate() {
        if !same_output(output, &b[i]) {
            return false;
        }
    }
    true
}

/// Whether the entry is of the step of this number, with these outputs.
pub(crate) fn is_entry_of(entry: &Entry, place: u32, outputs: &[Output]) -> bool
    ensures { IsTrue result ↔ ((entry.now.step ≡ place) × (entry.now.outputs ≡ outputs.now)) }
{
    entry.step == place && same_outputs(entry.outputs.as_slice(), outputs)
}
