//! Entries, read from the front of bytes, and trace files.

ghost use Rattle.std.specs.Prelude.{◌≡◌, ◌≢◌, List, [], length, Err, IfOk, IfErr, IsErrAnd, MatchResult};
ghost use Rattle.byte_layout.specs.declared.fault.Break.{Break};
ghost use Rattle.byte_layout.specs.declared.fault.LayoutFault.{LayoutFault};
ghost use Rattle.byte_layout.specs.declared.fault.LayoutFault.TheVariants.{Memory};
ghost use Rattle.byte_layout.specs.declared.fault.ReadError.TheVariants as errors;
ghost use Rattle.byte_layout.specs.Layout.{each};
ghost use Rattle.byte_layout.specs.Outcome.{Gives};
ghost use Rattle.byte_layout.specs.Whole.{HasFault, fault_of_break};
ghost use Rattle.trace_file.specs.declared.entry.Entry.{Entry as EntryData};
ghost use Rattle.trace_file.specs.Layout.{act, datagram, output, output_list, entry, entry_list, header, trace_file};
ghost use Rattle.trace_file.specs.Layout.{front, IsTraceFile};

use crate::entries::Entries;
use crate::entry::Entry;
use byte_layout::{
    Break, Format, Items, LayoutFault, ReadError, bytes_at, fault_at, items_at, load, u8_at,
    u16_at, u32_at,
};
use device_machine::{Act, Output, Outputs};
use octets::Bytes;
use std::alloc::Global;

/// The number of an act: 0 Reboot, 1 FactoryReset, 2 RegUpdate, 3 Disable, 4 Missed.
#[tactic(auto, unfolding(crate::specs::Layout::act))]
fn act_at(bytes: &[u8]) -> Result<(Act, &[u8]), ReadError>
    ensures read { Gives (λ x. (x.0, x.1.now)) result (act.read bytes.now) }
    ensures no_memory { IfErr result (λ e. e ≢ errors.Memory) }
{
    let (number, rest) = u8_at(bytes)?;
    match number {
        0 => Ok((Act::Reboot, rest)),
        1 => Ok((Act::FactoryReset, rest)),
        2 => Ok((Act::RegUpdate, rest)),
        3 => Ok((Act::Disable, rest)),
        4 => Ok((Act::Missed, rest)),
        _ => Err(ReadError::Fault(Break::BadField(bytes.len()))),
    }
}

#[tactic(auto, unfolding(crate::specs::Layout::datagram))]
fn datagram_at(alloc: Global, bytes: &[u8]) -> Result<(Output, &[u8]), ReadError>
    ensures read { Gives (λ x. (x.0, x.1.now)) result (datagram.read bytes.now) }
    ensures broken { (b : Break) → datagram.read bytes.now ≡ Err b → result ≡ Err (errors.Fault b) }
{
    let (server, rest) = u16_at(bytes)?;
    let (len, rest) = u16_at(rest)?;
    let (field, rest) = bytes_at(usize::from(len), rest)?;
    let bytes = Bytes::from_slice(alloc, field)?;
    Ok((Output::Send { server, bytes }, rest))
}

/// The number of its kind, 1 a datagram, 2 an act, and what an output of that kind holds.
#[tactic(auto, unfolding(crate::specs::Layout::output))]
#[inline(always)]
fn output_at(alloc: Global, bytes: &[u8]) -> Result<(Output, &[u8]), ReadError>
    ensures read { Gives (λ x. (x.0, x.1.now)) result (output.read bytes.now) }
    ensures broken { (b : Break) → output.read bytes.now ≡ Err b → result ≡ Err (errors.Fault b) }
{
    let (kind, rest) = u8_at(bytes)?;
    match kind {
        1 => datagram_at(alloc, rest),
        2 => {
            let (act, rest) = act_at(rest)?;
            Ok((Output::Act(act), rest))
        }
        _ => Err(ReadError::Fault(Break::BadField(bytes.len()))),
    }
}

/// Outputs, one after another.
pub(crate) struct OutputItems;

impl Items for OutputItems {
    ghost use Rattle.trace_file.specs.Layout.{output};

    type Item = Output;

    ghost part = { λ _ before. output };

    fn item_at<'a>(
        &self,
        alloc: Global,
        _before: &[Output],
        bytes: &'a [u8],
    ) -> Result<(Output, &'a [u8]), ReadError> {
        output_at(alloc, bytes)
    }
}

/// One output, which takes no memory beside that of its datagram.
#[tactic(auto, unfolding(byte_layout::specs::Layout::each))]
fn one_output_at(alloc: Global, bytes: &[u8]) -> Result<(Outputs, &[u8]), ReadError>
    ensures { Gives (λ x. (x.0, x.1.now)) result ((each (λ before. output) 1 []).read bytes.now) }
{
    let (output, rest) = output_at(alloc, bytes)?;
    Ok((Outputs::one(alloc, output)?, rest))
}

#[tactic(auto, unfolding(crate::specs::Layout::output_list))]
fn outputs_at(alloc: Global, bytes: &[u8]) -> Result<(Outputs, &[u8]), ReadError>
    ensures { Gives (λ x. (x.0, x.1.now)) result (output_list.read bytes.now) }
{
    let (count, rest) = u32_at(bytes)?;
    if count == 1 {
        return one_output_at(alloc, rest);
    }
    let (items, rest) = items_at(&OutputItems, alloc, count as usize, rest)?;
    Ok((Outputs::from_vec(items), rest))
}

/// An entry, read in the loop over them.
#[tactic(auto, unfolding(crate::specs::Layout::entry))]
#[inline(always)]
pub(crate) fn entry_at(alloc: Global, bytes: &[u8]) -> Result<(Entry, &[u8]), ReadError>
    ensures { Gives (λ x. (x.0, x.1.now)) result (entry.read bytes.now) }
{
    let (worker, rest) = u16_at(bytes)?;
    let (device, rest) = u16_at(rest)?;
    let (step, rest) = u32_at(rest)?;
    let (outputs, rest) = outputs_at(alloc, rest)?;
    let entry = Entry {
        worker,
        device,
        step,
        outputs,
    };
    Ok((entry, rest))
}

/// Entries, one after another.
pub(crate) struct EntryItems;

impl Items for EntryItems {
    ghost use Rattle.trace_file.specs.Layout.{entry};

    type Item = Entry;

    ghost part = { λ _ before. entry };

    fn item_at<'a>(
        &self,
        alloc: Global,
        _before: &[Entry],
        bytes: &'a [u8],
    ) -> Result<(Entry, &'a [u8]), ReadError> {
        entry_at(alloc, bytes)
    }
}

#[tactic(auto, unfolding(crate::specs::Layout::entry_list))]
fn entries_at(alloc: Global, bytes: &[u8]) -> Result<(Entries, &[u8]), ReadError>
    ensures { Gives (λ x. (x.0, x.1.now)) result (entry_list.read bytes.now) }
{
    let (count, rest) = u32_at(bytes)?;
    let (items, rest) = items_at(&EntryItems, alloc, count as usize, rest)?;
    Ok((Entries::from_vec(items), rest))
}

/// The bytes after the mark and the version.
pub(crate) fn header_at(bytes: &[u8]) -> Result<&[u8], ReadError>
    ensures read { Gives (λ rest. (tt, rest.now)) result (header.read bytes.now) }
    ensures no_memory { IfErr result (λ e. e ≢ errors.Memory) }
{
    let (mark, rest) = u32_at(bytes)?;
    if mark != 0x4C57_5452 {
        return Err(ReadError::Fault(Break::Magic));
    }
    let (version, rest) = u8_at(rest)?;
    if version != 1 {
        return Err(ReadError::Fault(Break::Version));
    }
    Ok(rest)
}

/// How many entries there are, and the numbers of the first of them, after the mark and the version.
#[tactic(auto, unfolding(crate::specs::Layout::front))]
pub(crate) fn front_at(bytes: &[u8]) -> Result<((u32, &[u8]), &[u8]), ReadError>
    ensures read { Gives (λ x. ((x.0.0, x.0.1.now), x.1.now)) result (front.read bytes.now) }
    ensures no_memory { IfErr result (λ e. e ≢ errors.Memory) }
{
    let rest = header_at(bytes)?;
    let (count, rest) = u32_at(rest)?;
    let size = if count == 0 { 0 } else { 12 };
    let (numbers, rest) = bytes_at(size, rest)?;
    Ok(((count, numbers), rest))
}

/// The trace file.
pub(crate) struct TraceFile;

impl Format for TraceFile {
    ghost use Rattle.std.specs.Prelude.{List};
    ghost use Rattle.trace_file.specs.declared.entry.Entry.{Entry as EntryData};
    ghost use Rattle.trace_file.specs.Layout.{trace_file};

    type Value = Entries;

    ghost Data = { List EntryData };

    ghost view = { λ e. e };

    ghost layout = { trace_file };

    #[tactic(auto, unfolding(crate::specs::Layout::trace_file))]
    fn read(alloc: Global, bytes: &[u8]) -> Result<(Entries, &[u8]), ReadError> {
        let rest = header_at(bytes)?;
        entries_at(alloc, rest)
    }
}

/// The entries whose trace file these bytes are, all of them, otherwise their one fault, the first from the left. A
/// count that is too large for the bytes is `Cut`; there is no `Limit`. A place counts bytes from 0. Bytes that end
/// within the mark, the version, the count of entries or the numbers of the first of them have that fault, whatever
/// memory there is (`front`): so 9 bytes that claim entries are `Cut`. No room is made for more than is read.
pub fn read_entries(alloc: Global, bytes: &[u8]) -> Result<Entries, LayoutFault>
    ensures found { IfOk result (λ es. IsTraceFile bytes.now es) }
    ensures only { (es : List EntryData) → IsTraceFile bytes.now es
        → MatchResult result (λ x. x ≡ es) (λ f. f ≡ Memory) }
    ensures fault { IfErr result (λ f. f ≢ Memory → HasFault trace_file bytes.now f) }
    ensures refused { (f : LayoutFault) → HasFault trace_file bytes.now f → IsErrAnd result (λ g. g ≢ Memory → g ≡ f) }
    ensures front { (b : Break) → front.Breaks bytes.now b → result ≡ Err (fault_of_break (length bytes.now) b) }
{
    // Another file, and one that ends in its first entry, is refused by its front, before memory is taken.
    match front_at(bytes) {
        Err(error) => Err(fault_at(bytes.len(), error)),
        Ok(_) => load::<TraceFile>(alloc, bytes),
    }
}
