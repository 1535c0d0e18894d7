//! A Delete: its rules, and what it removes.

ghost use Rattle.std.specs.Prelude.{◌≡◌, true, false, filter, not, IfOk, None, OnErr, OnOk};
ghost use Rattle.object_defs.specs.Numbers.{access_control_object};
ghost use Rattle.instance_store.specs.Stored.{has_instance};
ghost use Rattle.notifier.specs.Attributes.{without_under};
ghost use Rattle.object_defs.specs.Path.{object_in};
ghost use Rattle.device_requests.specs.Answer.{Leaves};
ghost use Rattle.device_requests.specs.Delete.{after_delete, taken_away, without_controls};
ghost use Rattle.device_requests.specs.Inside.{has_place};
ghost use Rattle.device_requests.specs.Outcomes.{delete_outcome};
ghost use Rattle.device_requests.specs.Refusals.{is_fixed, refusal_of, to_delete};
ghost use Rattle.device_requests.specs.Targets.{place_of};

use crate::answer::Answer;
use crate::client::Client;
use crate::ruling::Ruling;
use crate::targets::{exists, is_fixed};
use instance_store::Store;
use notifier::Attributes;
use object_defs::object_number::{ACCESS_CONTROL, SECURITY};
use object_defs::{InstancePath, Path};
use std::alloc::{AllocError, Global};

/// Removes an instance that exists, and each instance of Access Control for it.
fn take_away(store: &mut Store, path: Path)
    requires { has_place store.old path ≡ true }
    ensures { store.new ≡ after_delete store.old path }
{
    match path {
        Path::Instance(object, instance) => {
            match device_instances::delete(store, InstancePath { object, instance }) {
                Ok(()) => {}
                Err(_) => unreachable!(),
            }
        }
        Path::Object(_) | Path::Resource(_, _, _) | Path::Part(_, _, _, _) => {}
    }
}

/// Removes the attributes at or below those of these instances of Access Control that are not there.
fn forget(attributes: &mut Attributes, store: &Store, instances: &[u16])
    ensures { attributes.new ≡ without_controls attributes.old
        (filter (λ j. not (has_instance store.now (place_of access_control_object j))) instances.now) }
{
    for instance in instances {
        let place = InstancePath {
            object: ACCESS_CONTROL,
            instance: *instance,
        };
        if !store.has_instance(place) {
            attributes.remove_under(Path::Instance(ACCESS_CONTROL, *instance));
        }
    }
}

/// Removes an instance that exists, each instance of Access Control for it, and the attributes at or
/// below these.
fn delete_at(
    alloc: Global,
    store: &mut Store,
    attributes: &mut Attributes,
    path: Path,
) -> Result<(), AllocError>
    requires { has_place store.old path ≡ true }
    ensures store { OnOk result (store.new ≡ after_delete store.old path) }
    ensures attributes { OnOk result (attributes.new
        ≡ without_controls (without_under attributes.old path) (taken_away store.old (after_delete store.old path))) }
{
    let controls = Vec::from_slice(alloc, store.instances(ACCESS_CONTROL))?;
    take_away(store, path);
    attributes.remove_under(path);
    forget(attributes, store, controls.as_slice());
    Ok(())
}

impl Client {
    /// What refuses a Delete.
    fn delete_refusal(&self, server: u16, path: Path) -> Option<Ruling>
        ensures { result ≡ refusal_of self.now server path to_delete }
    {
        if path.object() == SECURITY {
            return Some(Ruling::Security);
        }
        if !exists(&self.catalog, &self.store, path) {
            return Some(Ruling::Target);
        }
        if !self.rights(server, path).delete {
            return Some(Ruling::Right);
        }
        if is_fixed(path.object()) {
            return Some(Ruling::Operation);
        }
        None
    }

    /// Deletes an instance, where no rule refuses it.
    #[tactic(auto, using(crate::proofs::Present::delete_has))]
    pub(crate) fn delete(&mut self, server: u16, path: Path) -> Result<Answer, AllocError>
        ensures outcome { IfOk result (λ a. Leaves a self.new (delete_outcome self.old server path)) }

        // No refusal takes memory.
        ensures may_lack_memory { OnErr result (refusal_of self.old server path to_delete ≡ None) }
        ensures takes { OnErr result (is_fixed (object_in path) ≡ false) }
    {
        match self.delete_refusal(server, path) {
            Some(ruling) => Ok(Answer::bare(self.alloc, ruling)),
            None => {
                delete_at(self.alloc, &mut self.store, &mut self.attributes, path)?;
                Ok(Answer::bare(self.alloc, Ruling::Deleted))
            }
        }
    }
}
