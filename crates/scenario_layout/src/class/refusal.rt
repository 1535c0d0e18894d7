ghost use Rattle.std.specs.Prelude.{◌≡◌};
ghost use Rattle.scenario_layout.specs.Growing.{refusal};

use byte_layout::{Break, ReadError};
use device_template::TemplateFault;

/// Why an item was not read that a class did not take, n bytes from the end.
pub(crate) fn refusal(fault: TemplateFault, left: usize) -> ReadError
    ensures { result ≡ refusal fault left }
{
    match fault {
        TemplateFault::Memory => ReadError::Memory,
        TemplateFault::Range
        | TemplateFault::Missing
        | TemplateFault::Duplicate
        | TemplateFault::Full => ReadError::Fault(Break::BadField(left)),
    }
}
