//! The order in which slices are joined.
ghost use Rattle.std.specs.Prelude.{◌≡◌, ◌+◌, ◌<◌, ◌≤◌, ◌≢◌, All, IfErr, IfNone, IfOk, IfSome, IsTrue, OnOk, OnErr, Some, length};
ghost use Rattle.std.specs.Prelude.{option_map};
ghost use Rattle.std.specs.List.{Contains};
ghost use Rattle.std.specs.List.Sorted.{IsNonDecreasingBy, IsPermutation};
ghost use Rattle.command_join.specs.Order.{AreByDevices, AreConsecutive, IsOrder, IsOrderFault, SaysDevices, SaysNoDevices};
ghost use Rattle.command_join.specs.Slices.{first_of, last_of};

use crate::slice::{Slice, blamed};
use command_files::Refusal;
use std::alloc::AllocError;

/// The first slice that does not say which devices it has.
fn first_without_devices<'a>(slices: &[Slice<'a>]) -> Option<Slice<'a>>
    ensures there { IfSome result (Contains slices.now) }
    ensures unsaid { IfSome result SaysNoDevices }
    ensures none { IfNone result (All SaysDevices slices.now) }
{
    for slice in slices {
        if slice.devices.is_none() {
            return Some(*slice);
        }
    }
    None
}

/// A slice that says which devices it has.
fn first_with_devices<'a>(slices: &[Slice<'a>]) -> Option<Slice<'a>>
    ensures there { IfSome result (Contains slices.now) }
    ensures said { IfSome result SaysDevices }
    ensures none { IfNone result (All SaysNoDevices slices.now) }
{
    for slice in slices {
        if slice.devices.is_some() {
            return Some(*slice);
        }
    }
    None
}

/// Puts slices in the order of their first devices.
fn sort_slices<'a>(slices: &mut Vec<Slice<'a>>) -> Result<(), AllocError>
    ensures same { IsPermutation slices.old.items slices.new.items }
    ensures sorted { OnOk result (IsNonDecreasingBy first_of slices.new.items) }
{
    slices.sort_by_key(|slice| slice.first())?;
    Ok(())
}

/// Why a slice cannot stand after this one; none if it can.
fn misfit(before: &Slice, slice: &Slice) -> Option<&'static str>
    ensures fits { IfNone result (first_of slice.now ≡ last_of before.now + 1) }
    ensures wrong { IfSome result (λ _. first_of slice.now ≢ last_of before.now + 1) }
{
    let first = u32::from(slice.first());
    let next = u32::from(before.last()) + 1;
    if first < next {
        return Some("it has a device that another image has too");
    }
    if first > next {
        return Some("no image has the device before its first one");
    }
    None
}

/// Whether each slice begins with the device after the last one of the slice before it.
#[tactic(auto, using(crate::proofs::Orders::following_all))]
fn check_order<'a>(slices: &[Slice<'a>]) -> Result<(), Refusal<'a>>
    requires said { All SaysDevices slices.now }
    requires upward { All (λ s. first_of s ≤ last_of s) slices.now }
    requires sorted { IsNonDecreasingBy first_of slices.now }
    ensures consecutive { OnOk result (AreConsecutive slices.now) }
    ensures refused { IfErr result (λ r. IsOrderFault slices.now (option_map (λ w. w.now) r.about) r.fault) }
{
    for k in 1..slices.len() {
        let slice = slices[k];
        if let Some(why) = misfit(&slices[k - 1], &slice) {
            return Err(blamed(slice, why));
        }
    }
    Ok(())
}

/// Slices that say which devices they have, in the order of these.
#[tactic(auto, using(crate::proofs::Orders::by_devices, crate::proofs::Orders::no_memory, crate::proofs::Orders::fault_permuted, crate::proofs::Orders::all_permuted))]
fn by_devices<'a>(mut slices: Vec<Slice<'a>>) -> Result<Vec<Slice<'a>>, Refusal<'a>>
    requires said { All SaysDevices slices.items }
    requires upward { All (λ s. first_of s ≤ last_of s) slices.items }
    ensures order { IfOk result (λ v. AreByDevices slices.entry.items v.items) }
    ensures refused { IfErr result (λ r. IsOrderFault slices.entry.items (option_map (λ w. w.now) r.about) r.fault) }
{
    sort_slices(&mut slices)?;
    check_order(slices.as_slice())?;
    Ok(slices)
}

/// The slices in the order in which they are joined.
#[tactic(auto, using(crate::proofs::Orders::order_by_devices, crate::proofs::Orders::order_as_named, crate::proofs::Orders::one_unsaid))]
pub(crate) fn in_order<'a>(slices: Vec<Slice<'a>>) -> Result<Vec<Slice<'a>>, Refusal<'a>>
    requires { All (λ s. first_of s ≤ last_of s) slices.items }
    ensures order { IfOk result (λ v. IsOrder slices.entry.items v.items) }
    ensures refused { IfErr result (λ r. IsOrderFault slices.entry.items (option_map (λ w. w.now) r.about) r.fault) }
{
    let unsaid = first_without_devices(slices.as_slice());
    let said = first_with_devices(slices.as_slice());
    match (unsaid, said) {
        (None, _) => by_devices(slices),
        (Some(_), None) => Ok(slices),
        (Some(slice), Some(_)) => Err(blamed(
            slice,
            "it does not say which devices it has, as another image does",
        )),
    }
}
