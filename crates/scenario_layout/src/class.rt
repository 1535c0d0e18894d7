//! A class of devices: how it notifies, its accounts, the objects of its own, its instances, its values.

ghost use Rattle.std.specs.Prelude.{◌≡◌, [], OnOk};
ghost use Rattle.byte_layout.specs.Outcome.{Gives};
ghost use Rattle.std.specs.FinMap as finite;
ghost use Rattle.device_template.specs.Template.{empty_class, with_notify};
ghost use Rattle.instance_store.specs.Stored.{empty};
ghost use Rattle.object_defs.specs.Base.{base};
ghost use Rattle.scenario_layout.specs.Class.{behind_accounts, behind_instances, behind_notify, behind_objects, class};
ghost use Rattle.scenario_layout.specs.Class.{notify_in};

mod accounts;
mod definitions;
mod instances;
mod objects;
mod refusal;
mod values;
mod writing;

use self::accounts::accounts_at;
use self::instances::instances_at;
use self::objects::objects_at;
use self::refusal::refusal;
use self::values::values_at;
use byte_layout::{ReadError, u8_at};
use device_template::Template;
use std::alloc::Global;
pub use writing::put_class;

/// A class at the front of the bytes, in an image of this version, and the bytes after it; else the first break from
/// the left, or `Memory`.
///
/// No room is made for more than is read, so a count that is too large for the bytes costs nothing before it is Cut.
#[tactic(auto, unfolding(crate::specs::Class::class))]
pub fn class_at(alloc: Global, version: u8, bytes: &[u8]) -> Result<(Template, &[u8]), ReadError>
    ensures { Gives (λ x. (x.0, x.1.now)) result ((class version).read bytes.now) }
{
    let mut template = Template::new(alloc)?;
    let rest = notify_at(&mut template, version, bytes)?;
    let rest = behind_notify_at(alloc, &mut template, rest)?;
    Ok((template, rest))
}

/// Sets how the devices of an empty class notify; version 1 does not say it.
#[tactic(auto, unfolding(crate::specs::Class::notify_in, crate::specs::Class::notify))]
fn notify_at<'a>(
    template: &mut Template,
    version: u8,
    bytes: &'a [u8],
) -> Result<&'a [u8], ReadError>
    requires { template.now ≡ empty_class }
    ensures read { Gives (λ rest. (template.new.notify, rest.now)) result ((notify_in version).read bytes.now) }
    ensures made { OnOk result (template.new ≡ with_notify empty_class template.new.notify) }
{
    if version == 1 {
        return Ok(bytes);
    }
    let (seconds, rest) = u8_at(bytes)?;
    if let Err(fault) = template.set_notify(seconds) {
        return Err(refusal(fault, bytes.len()));
    }
    Ok(rest)
}

/// Adds what stands after how it notifies to a class that has nothing else yet.
#[tactic(auto, unfolding(crate::specs::Class::behind_notify))]
fn behind_notify_at<'a>(
    alloc: Global,
    template: &mut Template,
    bytes: &'a [u8],
) -> Result<&'a [u8], ReadError>
    requires { template.now ≡ with_notify empty_class template.now.notify }
    ensures { Gives (λ rest. (template.new, rest.now)) result ((behind_notify template.old).read bytes.now) }
{
    let rest = accounts_at(template, bytes)?;
    behind_accounts_at(alloc, template, rest)
}

/// Adds what stands after the accounts to a class that has nothing else yet.
#[tactic(auto, unfolding(crate::specs::Class::behind_accounts))]
fn behind_accounts_at<'a>(
    alloc: Global,
    template: &mut Template,
    bytes: &'a [u8],
) -> Result<&'a [u8], ReadError>
    requires base { template.now.catalog ≡ base }
    requires empty { template.now.store ≡ empty }
    ensures { Gives (λ rest. (template.new, rest.now)) result ((behind_accounts template.old).read bytes.now) }
{
    let rest = objects_at(alloc, template, bytes)?;
    behind_objects_at(alloc, template, rest)
}

/// Adds the instances and the values to a class that has none yet.
#[tactic(auto, unfolding(crate::specs::Class::behind_objects))]
fn behind_objects_at<'a>(
    alloc: Global,
    template: &mut Template,
    bytes: &'a [u8],
) -> Result<&'a [u8], ReadError>
    requires { template.now.store ≡ empty }
    ensures { Gives (λ rest. (template.new, rest.now)) result ((behind_objects template.old).read bytes.now) }
{
    let rest = instances_at(template, bytes)?;
    behind_instances_at(alloc, template, rest)
}

/// Adds the values to a class that has none yet.
#[tactic(auto, unfolding(crate::specs::Class::behind_instances))]
fn behind_instances_at<'a>(
    alloc: Global,
    template: &mut Template,
    bytes: &'a [u8],
) -> Result<&'a [u8], ReadError>
    requires { template.now.store.values ≡ finite.empty }
    ensures { Gives (λ rest. (template.new, rest.now)) result ((behind_instances template.old).read bytes.now) }
{
    values_at(alloc, template, bytes)
}
