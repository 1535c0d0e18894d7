//! What follows from the layout, for its readers. The calls do nothing; their contracts are the laws.

ghost use Rattle.std.specs.Prelude.{◌≡◌, ◌↔◌, ◌<◌, ◌⊎◌, List, ℕ, length, Some, Ok, slice_get};
ghost use Rattle.byte_layout.specs.declared.fault.LayoutFault.{LayoutFault};
ghost use Rattle.byte_layout.specs.declared.fault.LayoutFault.TheVariants.{Limit};
ghost use Rattle.byte_layout.specs.Exact.{IsBytes, IsExact};
ghost use Rattle.byte_layout.specs.Whole.{HasFault, read_all};
ghost use Rattle.trace_file.specs.declared.entry.Entry.{Entry};
ghost use Rattle.trace_file.specs.Layout.{trace_file, IsTraceFile};
ghost use Rattle.trace_file.specs.Fits.{FitsEntry};

/// A trace file has one list of entries, and is read as it again; other bytes have one fault, never both, which is
/// never `Limit`.
pub fn one_trace_file()
    ensures exact { IsExact trace_file }
    ensures entries { (bytes : List ℕ) (a b : List Entry) → IsTraceFile bytes a → IsTraceFile bytes b → a ≡ b }
    ensures fault { (bytes : List ℕ) (f g : LayoutFault) → HasFault trace_file bytes f → HasFault trace_file bytes g
        → f ≡ g }
    ensures never_both { (bytes : List ℕ) (es : List Entry) (f : LayoutFault) → IsTraceFile bytes es
        → HasFault trace_file bytes f → ⊥ }
    ensures either { (bytes : List ℕ) → IsBytes bytes → ((es : List Entry) × IsTraceFile bytes es)
        ⊎ ((f : LayoutFault) × HasFault trace_file bytes f) }
    ensures again { (es : List Entry) → trace_file.Good es → read_all trace_file (trace_file.spell es) ≡ Ok es }
    ensures no_limit { (bytes : List ℕ) (place : ℕ) → HasFault trace_file bytes (Limit place) → ⊥ }
{}

/// Entries have a trace file exactly if there are fewer than 2^32, each with fewer than 2^32 outputs and with datagrams
/// below 65,536 bytes, and their numbers fit their fields.
pub fn what_has_a_trace_file()
    ensures { (es : List Entry) → trace_file.Good es ↔ (length es < 4294967296)
        × ((i : ℕ) (e : Entry) → slice_get es i ≡ Some e → FitsEntry e) }
{}
