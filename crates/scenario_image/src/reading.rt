//! Steps, read from the front of bytes.

ghost use Rattle.std.specs.Prelude.{◌≡◌, ◌≢◌, ℕ, List, false, Ok, Err, IfErr};
ghost use Rattle.byte_layout.specs.declared.fault.Break.{Break};
ghost use Rattle.byte_layout.specs.declared.fault.ReadError.TheVariants.{Fault, Memory};
ghost use Rattle.byte_layout.specs.Outcome.{Gives};
ghost use Rattle.scenario_image.specs.declared.kind.StepKind.{StepKind};
ghost use Rattle.scenario_image.specs.Layout.{kind, takes_memory, datagram, recv, tick, put, firmware, post, need};
ghost use Rattle.scenario_image.specs.Layout.{of_kind, step, steps};

use crate::kind::{StepKind, kind_at};
use crate::scenario::MOST_STEPS;
use crate::step::{Step, is_account};
use byte_layout::{
    Break, Items, ReadError, bytes_at, items_at, u8_at, u16_at, u16_at_most, u32_at,
};
use device_machine::Event;
use octets::Bytes;
use scenario_layout::{path_at, value_at};
use std::alloc::Global;

#[tactic(auto, unfolding(crate::specs::Layout::datagram))]
fn datagram_at(alloc: Global, bytes: &[u8]) -> Result<(Bytes, &[u8]), ReadError>
    ensures read { Gives (λ x. (x.0, x.1.now)) result (datagram.read bytes.now) }
    ensures broken { (b : Break) → datagram.read bytes.now ≡ Err b → result ≡ Err (Fault b) }
{
    let (len, rest) = u16_at_most(1500, bytes)?;
    let (field, rest) = bytes_at(usize::from(len), rest)?;
    Ok((Bytes::from_slice(alloc, field)?, rest))
}

#[tactic(auto, unfolding(crate::specs::Layout::recv))]
fn recv_at<'a>(
    alloc: Global,
    accounts: &[u16],
    bytes: &'a [u8],
) -> Result<(Step, &'a [u8]), ReadError>
    ensures read { Gives (λ x. (x.0, x.1.now)) result ((recv accounts.now).read bytes.now) }
    ensures broken { (b : Break) → (recv accounts.now).read bytes.now ≡ Err b → result ≡ Err (Fault b) }
{
    let (server, rest) = u16_at(bytes)?;
    if !is_account(accounts, server) {
        return Err(ReadError::Fault(Break::BadField(bytes.len())));
    }
    let (bytes, rest) = datagram_at(alloc, rest)?;
    Ok((Step::Event(Event::Recv { server, bytes }), rest))
}

#[tactic(auto, unfolding(crate::specs::Layout::tick))]
fn tick_at(bytes: &[u8]) -> Result<(Step, &[u8]), ReadError>
    ensures read { Gives (λ x. (x.0, x.1.now)) result (tick.read bytes.now) }
    ensures no_memory { IfErr result (λ e. e ≢ Memory) }
{
    let (seconds, rest) = u32_at(bytes)?;
    if seconds < 1 || seconds > 86_400 {
        return Err(ReadError::Fault(Break::BadField(bytes.len())));
    }
    Ok((Step::Event(Event::Tick(seconds)), rest))
}

#[tactic(auto, unfolding(crate::specs::Layout::put))]
fn put_at(alloc: Global, bytes: &[u8]) -> Result<(Step, &[u8]), ReadError>
    ensures { Gives (λ x. (x.0, x.1.now)) result (put.read bytes.now) }
{
    let (full, rest) = path_at(bytes)?;
    let (value, rest) = value_at(alloc, None, rest)?;
    let path = full.to_path();
    Ok((Step::Event(Event::Put { path, value }), rest))
}

#[tactic(auto, unfolding(crate::specs::Layout::firmware))]
fn firmware_at(bytes: &[u8]) -> Result<(Step, &[u8]), ReadError>
    ensures read { Gives (λ x. (x.0, x.1.now)) result (firmware.read bytes.now) }
    ensures no_memory { IfErr result (λ e. e ≢ Memory) }
{
    let (code, rest) = u8_at(bytes)?;
    if code > 9 {
        return Err(ReadError::Fault(Break::BadField(bytes.len())));
    }
    Ok((Step::Event(Event::Firmware(code)), rest))
}

#[tactic(auto, unfolding(crate::specs::Layout::post))]
fn post_at(bytes: &[u8]) -> Result<(Step, &[u8]), ReadError>
    ensures read { Gives (λ x. (x.0, x.1.now)) result (post.read bytes.now) }
    ensures no_memory { IfErr result (λ e. e ≢ Memory) }
{
    let (group, rest) = u8_at(bytes)?;
    Ok((Step::Post(group), rest))
}

#[tactic(auto, unfolding(crate::specs::Layout::need))]
fn need_at(bytes: &[u8]) -> Result<(Step, &[u8]), ReadError>
    ensures read { Gives (λ x. (x.0, x.1.now)) result (need.read bytes.now) }
    ensures no_memory { IfErr result (λ e. e ≢ Memory) }
{
    let (group, rest) = u8_at(bytes)?;
    let (count, behind) = u32_at(rest)?;
    if count < 1 || count > 1_000_000 {
        return Err(ReadError::Fault(Break::BadField(rest.len())));
    }
    Ok((Step::Need(group, count), behind))
}

/// What a step of this kind holds.
fn held_at<'a>(
    alloc: Global,
    accounts: &[u16],
    kind: StepKind,
    bytes: &'a [u8],
) -> Result<(Step, &'a [u8]), ReadError>
    ensures read { Gives (λ x. (x.0, x.1.now)) result ((of_kind accounts.now kind).read bytes.now) }
    ensures no_memory { takes_memory kind ≡ false → IfErr result (λ e. e ≢ Memory) }
{
    match kind {
        StepKind::Recv => recv_at(alloc, accounts, bytes),
        StepKind::Tick => tick_at(bytes),
        StepKind::Put => put_at(alloc, bytes),
        StepKind::Firmware => firmware_at(bytes),
        StepKind::Post => post_at(bytes),
        StepKind::Need => need_at(bytes),
    }
}

/// A step of a class with these accounts, and the bytes after it. A kind that is not one is that fault, and memory can
/// only run out for a datagram or a value.
#[tactic(auto, unfolding(crate::specs::Layout::step))]
pub fn step_at<'a>(
    alloc: Global,
    accounts: &[u16],
    bytes: &'a [u8],
) -> Result<(Step, &'a [u8]), ReadError>
    ensures read { Gives (λ x. (x.0, x.1.now)) result ((step accounts.now).read bytes.now) }
    // Only for a datagram and a value memory may run out.
    ensures kind { (b : Break) → kind.read bytes.now ≡ Err b → result ≡ Err (Fault b) }
    ensures no_memory { (k : StepKind) (rest : List ℕ) → kind.read bytes.now ≡ Ok (k, rest) → takes_memory k ≡ false
        → IfErr result (λ e. e ≢ Memory) }
{
    let (kind, rest) = kind_at(bytes)?;
    held_at(alloc, accounts, kind, rest)
}

/// Steps of a class with these accounts.
#[derive(Drop)]
pub(crate) struct Steps<'a> {
    pub(crate) accounts: &'a [u16],
}

impl<'a> Items for Steps<'a> {
    ghost use Rattle.scenario_image.specs.Layout.{step};

    type Item = Step;

    ghost part = { λ s before. step s.accounts.now };

    fn item_at<'b>(
        &self,
        alloc: Global,
        _before: &[Step],
        bytes: &'b [u8],
    ) -> Result<(Step, &'b [u8]), ReadError> {
        step_at(alloc, self.accounts, bytes)
    }
}

/// The steps of a row of a class with these accounts, at most 4,096, and the bytes after them.
#[tactic(auto, unfolding(crate::specs::Layout::steps))]
pub fn steps_at<'a>(
    alloc: Global,
    accounts: &[u16],
    bytes: &'a [u8],
) -> Result<(Vec<Step>, &'a [u8]), ReadError>
    ensures { Gives (λ x. (x.0.items, x.1.now)) result ((steps accounts.now).read bytes.now) }
{
    let (count, rest) = u16_at_most(MOST_STEPS, bytes)?;
    items_at(&Steps { accounts }, alloc, usize::from(count), rest)
}
