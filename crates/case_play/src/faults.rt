//! Why a file is refused, in words.

ghost use Rattle.std.specs.Prelude.{◌≡◌, IfOk};
ghost use Rattle.std.specs.String.{string_bytes};
ghost use Rattle.case_play.specs.Faults.{fault_words, placed_words};

use byte_layout::LayoutFault;
use lwm2m_values::Text;
use std::alloc::{AllocError, Global};

fn placed_words(alloc: Global, words: &str, place: usize) -> Result<String, AllocError>
    ensures { IfOk result (λ t. string_bytes t ≡ placed_words words.now place) }
{
    format!(in alloc; "{words} at {place}")
}

fn placed_fault(alloc: Global, words: &str, place: usize) -> Result<Text, AllocError>
    ensures { IfOk result (λ t. t ≡ placed_words words.now place) }
{
    let text = placed_words(alloc, words, place)?;
    Ok(Text::from_string(text))
}

/// Why a file is refused, in the words of `lwbench`.
pub fn fault_words(alloc: Global, fault: LayoutFault) -> Result<Text, AllocError>
    ensures { IfOk result (λ t. t ≡ fault_words fault) }
{
    match fault {
        LayoutFault::Magic => Text::from_str(alloc, "magic"),
        LayoutFault::Version => Text::from_str(alloc, "version"),
        LayoutFault::Cut => Text::from_str(alloc, "cut"),
        LayoutFault::Trailing => Text::from_str(alloc, "trailing"),
        LayoutFault::BadField(place) => placed_fault(alloc, "bad field", place),
        LayoutFault::Limit(place) => placed_fault(alloc, "limit", place),
        LayoutFault::Memory => Text::from_str(alloc, "memory"),
    }
}
