//! Which entries have a trace file, and its bytes.

ghost use Rattle.std.specs.Prelude.{◌≡◌, ◌↔◌, ◌<◌, ◌++◌, List, ℕ, length, IfOk, IfErr, OnOk, OnErr, IsTrue};
ghost use Rattle.std.specs.Io.{StartsWith};
ghost use Rattle.device_machine.specs.declared.output.Output.TheVariants.{Send};
ghost use Rattle.trace_file.specs.declared.fault.WriteFault.TheVariants.{TooLarge};
ghost use Rattle.trace_file.specs.Layout.{act_number, act, datagram, output, output_list, entry, entry_list};
ghost use Rattle.trace_file.specs.Layout.{trace_file};
ghost use Rattle.trace_file.specs.Layout.{IsTraceFile};

use crate::entry::Entry;
use crate::fault::WriteFault;
use crate::reading::{EntryItems, OutputItems};
use byte_layout::{PutItems, put_bytes, put_items, put_u8, put_u16, put_u32};
use device_machine::{Act, Output};
use octets::Bytes;
use std::alloc::{AllocError, Global};

/// Whether the datagram has bytes: below 65,536.
#[tactic(auto, using(crate::proofs::Good::sent_good, crate::proofs::Good::sent_short))]
fn datagram_has_bytes(server: u16, bytes: &Bytes) -> bool
    ensures { IsTrue result ↔ output.Good (Send server bytes.now) }
{
    bytes.len() <= usize::from(u16::MAX)
}

/// Whether the output has bytes.
#[tactic(auto, using(crate::proofs::Good::acted_good))]
fn output_has_bytes(item: &Output) -> bool
    ensures { IsTrue result ↔ output.Good item.now }
{
    match item {
        Output::Send { server, bytes } => datagram_has_bytes(*server, bytes),
        Output::Act(_) => true,
    }
}

/// Whether each output has bytes, and their count.
fn outputs_have_bytes(items: &[Output]) -> bool
    ensures { IsTrue result ↔ output_list.Good items.now }
{
    if items.len() > u32::MAX as usize {
        return false;
    }
    for item in items {
        if !output_has_bytes(item) {
            return false;
        }
    }
    true
}

/// Whether the entry has bytes.
#[tactic(auto, using(crate::proofs::Good::entry_good, crate::proofs::Good::outputs_good))]
fn entry_has_bytes(item: &Entry) -> bool
    ensures { IsTrue result ↔ entry.Good item.now }
{
    // A number that is read is known to be in its type's range.
    let (_worker, _device, _step) = (item.worker, item.device, item.step);
    outputs_have_bytes(item.outputs.as_slice())
}

/// Whether each entry has bytes, and their count.
fn entries_have_bytes(items: &[Entry]) -> bool
    ensures { IsTrue result ↔ entry_list.Good items.now }
{
    if items.len() > u32::MAX as usize {
        return false;
    }
    for item in items {
        if !entry_has_bytes(item) {
            return false;
        }
    }
    true
}

/// The number of an act.
fn act_number(a: Act) -> u8
    ensures { result ≡ act_number a }
{
    match a {
        Act::Reboot => 0,
        Act::FactoryReset => 1,
        Act::RegUpdate => 2,
        Act::Disable => 3,
        Act::Missed => 4,
    }
}

#[tactic(auto, unfolding(crate::specs::Layout::act))]
fn put_act(out: &mut Vec<u8>, a: Act) -> Result<(), AllocError>
    ensures ok { OnOk result (out.new.items ≡ out.old.items ++ act.spell a) }
    ensures err { OnErr result (out.new.items ≡ out.old.items) }
{
    put_u8(out, act_number(a))
}

#[tactic(auto, using(byte_layout::proofs::Appended::appended), unfolding(crate::specs::Layout::datagram))]
fn put_datagram(out: &mut Vec<u8>, server: u16, bytes: &[u8]) -> Result<(), AllocError>
    requires { length bytes.now < 65536 }
    ensures ok { OnOk result (out.new.items ≡ out.old.items ++ datagram.spell (Send server bytes.now)) }
    ensures appends { StartsWith out.new.items out.old.items }
{
    put_u16(out, server)?;
    put_u16(out, bytes.len() as u16)?;
    put_bytes(out, bytes)
}

#[tactic(auto, using(crate::proofs::Good::sent_short, byte_layout::proofs::Appended::appended), unfolding(crate::specs::Layout::output))]
fn put_output(out: &mut Vec<u8>, item: &Output) -> Result<(), AllocError>
    requires { output.Good item.now }
    ensures ok { OnOk result (out.new.items ≡ out.old.items ++ output.spell item.now) }
    ensures appends { StartsWith out.new.items out.old.items }
{
    match item {
        Output::Send { server, bytes } => {
            put_u8(out, 1)?;
            put_datagram(out, *server, bytes.as_slice())
        }
        Output::Act(a) => {
            put_u8(out, 2)?;
            put_act(out, *a)
        }
    }
}

impl PutItems for OutputItems {
    fn put_item(
        &self,
        out: &mut Vec<u8>,
        _before: &[Output],
        item: &Output,
    ) -> Result<(), AllocError> {
        put_output(out, item)
    }
}

#[tactic(auto, using(crate::proofs::Good::outputs_below, byte_layout::proofs::Appended::appended), unfolding(crate::specs::Layout::output_list))]
fn put_outputs(out: &mut Vec<u8>, items: &[Output]) -> Result<(), AllocError>
    requires { output_list.Good items.now }
    ensures ok { OnOk result (out.new.items ≡ out.old.items ++ output_list.spell items.now) }
    ensures appends { StartsWith out.new.items out.old.items }
{
    put_u32(out, items.len() as u32)?;
    put_items(&OutputItems, out, items)
}

#[tactic(auto, using(crate::proofs::Good::outputs_good, byte_layout::proofs::Appended::appended), unfolding(crate::specs::Layout::entry))]
fn put_entry(out: &mut Vec<u8>, item: &Entry) -> Result<(), AllocError>
    requires { entry.Good item.now }
    ensures ok { OnOk result (out.new.items ≡ out.old.items ++ entry.spell item.now) }
    ensures appends { StartsWith out.new.items out.old.items }
{
    put_u16(out, item.worker)?;
    put_u16(out, item.device)?;
    put_u32(out, item.step)?;
    put_outputs(out, item.outputs.as_slice())
}

impl PutItems for EntryItems {
    fn put_item(
        &self,
        out: &mut Vec<u8>,
        _before: &[Entry],
        item: &Entry,
    ) -> Result<(), AllocError> {
        put_entry(out, item)
    }
}

#[tactic(auto, using(crate::proofs::Good::entries_below), unfolding(crate::specs::Layout::entry_list))]
fn put_entries(out: &mut Vec<u8>, items: &[Entry]) -> Result<(), AllocError>
    requires { entry_list.Good items.now }
    ensures { OnOk result (out.new.items ≡ out.old.items ++ entry_list.spell items.now) }
{
    put_u32(out, items.len() as u32)?;
    put_items(&EntryItems, out, items)
}

#[tactic(auto, unfolding(crate::specs::Layout::trace_file))]
fn put_trace_file(out: &mut Vec<u8>, items: &[Entry]) -> Result<(), AllocError>
    requires { entry_list.Good items.now }
    ensures { OnOk result (out.new.items ≡ out.old.items ++ trace_file.spell items.now) }
{
    put_u32(out, 0x4C57_5452)?;
    put_u8(out, 1)?;
    put_entries(out, items)
}

/// The trace file of the entries. `TooLarge` comes exactly where they have none: where their count, the count of an
/// entry's outputs or the length of a datagram is past its field, 4 bytes for a count and 2 for a length. `Memory` says
/// that no memory was left.
pub fn write_entries(alloc: Global, entries: &[Entry]) -> Result<Bytes, WriteFault>
    ensures written { IfOk result (λ b. IsTraceFile b entries.now) }
    ensures refused { IfErr result (λ e. (e ≡ TooLarge) ↔ ((bytes : List ℕ) → IsTraceFile bytes entries.now → ⊥)) }
{
    if !entries_have_bytes(entries) {
        return Err(WriteFault::TooLarge);
    }
    let mut out = Vec::new(alloc);
    put_trace_file(&mut out, entries)?;
    Ok(Bytes::from_vec(out))
}
