//! Slices of a scenario, by the words that name them.
ghost use Rattle.std.specs.Prelude.{ℕ, ◌≡◌, [], ◌∷◌, ◌++◌, List, Some, IfNone, IfOk, IfSome, OnOk, map, option_map};
ghost use Rattle.command_files.specs.declared.devices.Devices.{Devices as DevicesData};
ghost use Rattle.command_join.specs.Slices.{AreSlices, HasRange, IsSlice, first_of, last_of};

use command_files::{Devices, Fault, Refusal, Why, read_devices};
use std::alloc::{AllocError, Global};

/// A slice of a scenario: the image that has it, and which devices these are, if that is said.
#[derive(Clone, Copy)]
pub struct Slice<'a> {
    /// The word that names it.
    pub word: &'a str,
    /// Where its image is.
    pub path: &'a str,
    /// Which devices of the whole scenario it has.
    pub devices: Option<Devices>,
}

/// The path and the devices of `A-B=IMAGE`.
fn range_and_path<'a>(word: &'a str) -> Option<(&'a str, Devices)>
    ensures range { IfSome result (λ p. HasRange word.entry.now p.0.now p.1) }
    ensures none { IfNone result ((path : List ℕ) (devices : DevicesData) → HasRange word.entry.now path devices
        → ⊥) }
{
    let (range, path) = word.split_once('=')?;
    let devices = read_devices(range)?;
    Some((path, devices))
}

/// The slice that a word names.
pub(crate) fn slice_of<'a>(word: &'a str) -> Slice<'a>
    ensures { IsSlice word.entry.now result }
{
    match range_and_path(word) {
        Some((path, devices)) => Slice {
            word,
            path,
            devices: Some(devices),
        },
        None => Slice {
            word,
            path: word,
            devices: None,
        },
    }
}

impl Slice<'_> {
    /// Its first device, or 0 where none is said.
    pub(crate) fn first(&self) -> u16
        ensures { result ≡ first_of self.now }
    {
        match self.devices {
            None => 0,
            Some(devices) => devices.first,
        }
    }

    /// Its last device, or 0 where none is said.
    pub(crate) fn last(&self) -> u16
        ensures { result ≡ last_of self.now }
    {
        match self.devices {
            None => 0,
            Some(devices) => devices.last,
        }
    }
}

/// The refusal of the word of a slice.
pub(crate) fn blamed<'a>(slice: Slice<'a>, why: &'static str) -> Refusal<'a>
    ensures fault { result.fault ≡ Fault.Slices }
    ensures about { option_map (λ w. w.now) result.about ≡ Some slice.entry.word.now }
{
    Refusal {
        fault: Fault::Slices,
        about: Some(slice.word),
        why: Why::Known(why),
    }
}

fn add<'a>(all: &mut Vec<Slice<'a>>, slice: Slice<'a>) -> Result<(), AllocError>
    ensures { OnOk result (all.new.items ≡ all.old.items ++ slice.entry ∷ []) }
{
    all.push(slice)?;
    Ok(())
}

/// The slices that words name, in their order.
pub(crate) fn slices_of<'a>(alloc: Global, words: &[&'a str]) -> Result<Vec<Slice<'a>>, AllocError>
    ensures { IfOk result (λ v. AreSlices (map (λ w. w.now) words.now) v.items) }
{
    let mut all = Vec::new(alloc);
    for word in words {
        add(&mut all, slice_of(*word))?;
    }
    Ok(all)
}
