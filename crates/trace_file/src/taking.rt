//! Trace files, read entry by entry.

ghost use Rattle.std.specs.Prelude.{◌≡◌, ◌≢◌, ◌<◌, ◌++◌, ◌∷◌, List, [], length, IfErr, IsErrAnd, OnOk, Err};
ghost use Rattle.byte_layout.specs.declared.fault.Break.{Break};
ghost use Rattle.byte_layout.specs.declared.fault.LayoutFault.{LayoutFault};
ghost use Rattle.byte_layout.specs.declared.fault.LayoutFault.TheVariants.{Memory};
ghost use Rattle.byte_layout.specs.Layout.{each};
ghost use Rattle.byte_layout.specs.Outcome.{Gives};
ghost use Rattle.byte_layout.specs.Whole.{HasFault, fault_of_break, read_all};
ghost use Rattle.trace_file.specs.declared.entry.Entry.{Entry as EntryData};
ghost use Rattle.trace_file.specs.Layout.{entry, entry_list, trace_file, front, IsTraceFile};

use crate::entry::Entry;
use crate::reading::{entry_at, front_at, header_at};
use byte_layout::{Break, LayoutFault, ReadError, fault_at, u32_at};
use std::alloc::{AllocError, Global};

/// What takes the entries of a trace file, one after another.
pub trait TakesEntries {
    ghost use Rattle.std.specs.Prelude.{◌≡◌, ◌<◌, ◌++◌, ◌∷◌, List, [], length, OnOk};
    ghost use Rattle.trace_file.specs.declared.entry.Entry.{Entry as EntryData};

    /// The entries that it has taken, in order.
    ghost taken: { Self → List EntryData };

    /// That it can take another.
    ghost IsReady: { Self → Type 0 };

    /// What of it stays as it is.
    ghost Kept: { Type 0 };

    ghost kept: { Self → Kept };

    /// Takes an entry after the others.
    fn take(&mut self, entry: Entry) -> Result<(), AllocError>
        requires ready { IsReady self.old }
        requires room { length (taken self.old) < 4294967295 }
        ensures taken { OnOk result (taken self.new ≡ taken self.old ++ entry ∷ []) }
        ensures ready { OnOk result (IsReady self.new) }
        ensures kept { OnOk result (kept self.new ≡ kept self.old) };
}

/// Takes n entries that stand at the front of the bytes, and returns the bytes after them.
fn take_entries<'a, T: TakesEntries>(
    alloc: Global,
    taker: &mut T,
    count: u32,
    bytes: &'a [u8],
) -> Result<&'a [u8], ReadError>
    requires ready { T.IsReady taker.old }
    requires none { T.taken taker.old ≡ [] }
    ensures read { Gives (λ rest. (T.taken taker.new, rest.now)) result
        ((each (λ before. entry) count []).read bytes.now) }
    ensures ready { OnOk result (T.IsReady taker.new) }
    ensures kept { OnOk result (T.kept taker.new ≡ T.kept taker.old) }
{
    let mut rest = bytes;
    for _ in 0..count {
        let (entry, after) = entry_at(alloc, rest)?;
        taker.take(entry)?;
        rest = after;
    }
    Ok(rest)
}

/// Takes the entries of a list that stands at the front of the bytes, and returns the bytes after it.
#[tactic(auto, unfolding(crate::specs::Layout::entry_list))]
fn take_list<'a, T: TakesEntries>(
    alloc: Global,
    taker: &mut T,
    bytes: &'a [u8],
) -> Result<&'a [u8], ReadError>
    requires ready { T.IsReady taker.old }
    requires none { T.taken taker.old ≡ [] }
    ensures read { Gives (λ rest. (T.taken taker.new, rest.now)) result (entry_list.read bytes.now) }
    ensures ready { OnOk result (T.IsReady taker.new) }
    ensures kept { OnOk result (T.kept taker.new ≡ T.kept taker.old) }
{
    let (count, rest) = u32_at(bytes)?;
    take_entries(alloc, taker, count, rest)
}

/// Takes the entries of a trace file at the front of the bytes, and returns the bytes after it.
#[tactic(auto, unfolding(crate::specs::Layout::trace_file))]
fn take_front<'a, T: TakesEntries>(
    alloc: Global,
    taker: &mut T,
    bytes: &'a [u8],
) -> Result<&'a [u8], ReadError>
    requires ready { T.IsReady taker.old }
    requires none { T.taken taker.old ≡ [] }
    ensures read { Gives (λ rest. (T.taken taker.new, rest.now)) result (trace_file.read bytes.now) }
    ensures ready { OnOk result (T.IsReady taker.new) }
    ensures kept { OnOk result (T.kept taker.new ≡ T.kept taker.old) }
{
    let rest = header_at(bytes)?;
    take_list(alloc, taker, rest)
}

/// Takes the entries of a trace file that all of the bytes are.
fn take_whole<T: TakesEntries>(alloc: Global, taker: &mut T, bytes: &[u8]) -> Result<(), ReadError>
    requires ready { T.IsReady taker.old }
    requires none { T.taken taker.old ≡ [] }
    ensures read { Gives (λ _. T.taken taker.new) result (read_all trace_file bytes.now) }
    ensures ready { OnOk result (T.IsReady taker.new) }
    ensures kept { OnOk result (T.kept taker.new ≡ T.kept taker.old) }
{
    let rest = take_front(alloc, taker, bytes)?;
    if !rest.is_empty() {
        return Err(ReadError::Fault(Break::Trailing));
    }
    Ok(())
}

/// Has the entries taken, in order, whose trace file these bytes are, all of them, and keeps none; otherwise their one
/// fault, as `read_entries` has it. Where there is a fault, entries before it may have been taken. `Memory` says that
/// no memory was left, here or where an entry was taken.
pub fn take_file<T: TakesEntries>(
    alloc: Global,
    taker: &mut T,
    bytes: &[u8],
) -> Result<(), LayoutFault>
    requires ready { T.IsReady taker.old }
    requires none { T.taken taker.old ≡ [] }
    ensures found { OnOk result (IsTraceFile bytes.now (T.taken taker.new)) }
    ensures ready { OnOk result (T.IsReady taker.new) }
    ensures kept { OnOk result (T.kept taker.new ≡ T.kept taker.old) }
    ensures only { (es : List EntryData) → IsTraceFile bytes.now es → IfErr result (λ f. f ≡ Memory) }
    ensures fault { IfErr result (λ f. f ≢ Memory → HasFault trace_file bytes.now f) }
    ensures refused { (f : LayoutFault) → HasFault trace_file bytes.now f → IsErrAnd result (λ g. g ≢ Memory → g ≡ f) }
    ensures front { (b : Break) → front.Breaks bytes.now b → result ≡ Err (fault_of_break (length bytes.now) b) }
{
    // Another file, and one that ends in its first entry, is refused by its front, before an entry is taken.
    if let Err(error) = front_at(bytes) {
        return Err(fault_at(bytes.len(), error));
    }
    match take_whole(alloc, taker, bytes) {
        Ok(()) => Ok(()),
        Err(error) => Err(fault_at(bytes.len(), error)),
    }
}
