//! A Create: its rules, and the instance that it makes.

ghost use Rattle.std.specs.Prelude.{◌≡◌, ◌≢◌, ◌∷◌, [], true, false, length, not, ok_or, IfOk, OnErr, OnOk, Some};
ghost use Rattle.std.specs.Option.{is_some};
ghost use Rattle.std.specs.Result.{result_err};
ghost use Rattle.device_requests.specs.Answer.{Leaves};
ghost use Rattle.device_requests.specs.Create.{create_unless, creation_lack, lacks_room, newborn, newborn_from};
ghost use Rattle.device_requests.specs.Create.{newborn_judged, number_fault};
ghost use Rattle.device_requests.specs.Outcomes.{create_outcome};
ghost use Rattle.device_requests.specs.Client.{with_stored};
ghost use Rattle.device_requests.specs.Refusals.{is_fixed, is_tlv};
ghost use Rattle.device_requests.specs.Ruling.{code_of, takes_memory};
ghost use Rattle.device_requests.specs.Targets.{place_of, resources_defined};
ghost use Rattle.device_instances.specs.Creations.{with_created};
ghost use Rattle.device_instances.specs.Numbers.{number_for};
ghost use Rattle.lwm2m_payloads.specs.Given.{creation_given};
ghost use Rattle.instance_store.specs.Stored.{has_instance};
ghost use Rattle.object_defs.specs.Numbers.{access_control_object};
ghost use Rattle.object_defs.specs.Lines.{first_line};
ghost use Rattle.object_defs.specs.Path.{object_in};

use crate::answer::{Answer, Code};
use crate::client::Client;
use crate::ruling::Ruling;
use crate::targets::{defined, exists, is_fixed};
use device_instances::{NoRoom, lack_of_room, number_for};
use instance_store::{Store, StoreFault};
use lwm2m_payloads::{Assignments, Format, PayloadFault, creation_given};
use object_defs::object_number::SECURITY;
use object_defs::{Catalog, InstancePath, Path};
use std::alloc::{AllocError, Global};

/// Why a Create makes nothing of a payload.
#[derive(Clone, Copy)]
pub enum CreationFault {
    /// The payload is at fault.
    Payload(PayloadFault),
    /// An instance has the number that is named, or it is 65535.
    Taken {
        /// The number.
        number: u16,
    },
    /// No number is named, and none is free.
    NoNumber,
}

/// A new instance.
#[derive(Drop)]
pub struct Newborn {
    /// Its number.
    pub number: u16,
    /// What its resources are given.
    pub given: Assignments,
}

/// Whether a Content-Format is TLV, or there is none.
fn is_tlv(number: Option<u16>) -> bool
    ensures { result ≡ is_tlv number }
{
    match number {
        None => true,
        Some(number) => number == Format::Tlv.number(),
    }
}

/// The number of a new instance, or why none is free.
#[tactic(auto, using(crate::proofs::Present::number_free))]
fn free_number(store: &Store, object: u16, named: Option<u16>) -> Result<u16, CreationFault>
    ensures number { result ≡ ok_or (number_for store.now object named) (number_fault named) }
    ensures free { IfOk result (λ n. has_instance store.now (place_of object n) ≡ false) }
{
    match number_for(store, object, named) {
        Some(number) => Ok(number),
        None => match named {
            Some(number) => Err(CreationFault::Taken { number }),
            None => Err(CreationFault::NoNumber),
        },
    }
}

/// What a payload makes of an object, or why it makes nothing.
fn newborn_judged(
    alloc: Global,
    catalog: &Catalog,
    store: &Store,
    object: u16,
    payload: &[u8],
) -> Result<Result<Newborn, CreationFault>, AllocError>
    ensures newborn { IfOk result (λ b. b ≡
        newborn_from store.now object (creation_given (resources_defined catalog.now object) payload.now)) }
    ensures free { IfOk result (λ r. IfOk r (λ b. has_instance store.now (place_of object b.number) ≡ false)) }
{
    match creation_given(alloc, defined(catalog, object), payload)? {
        Err(fault) => Ok(Err(CreationFault::Payload(fault))),
        Ok(creation) => match free_number(store, object, creation.number) {
            Err(fault) => Ok(Err(fault)),
            Ok(number) => Ok(Ok(Newborn {
                number,
                given: creation.assigned,
            })),
        },
    }
}

/// Why a Create makes nothing of a payload, if it makes nothing: what of the payload is at fault, or else that no
/// number is free. A Create is refused by this very judgement.
pub fn creation_fault(
    alloc: Global,
    client: &Client,
    object: u16,
    payload: &[u8],
) -> Result<Option<CreationFault>, AllocError>
    ensures { IfOk result (λ f. f ≡ result_err (newborn_judged client.now object payload.now)) }
{
    let judged = newborn_judged(alloc, client.catalog(), client.store(), object, payload)?;
    Ok(judged.err())
}

/// For what there is no room after a Create, if its payload makes something.
pub fn creation_lack(
    alloc: Global,
    client: &Client,
    object: u16,
    payload: &[u8],
) -> Result<Option<NoRoom>, AllocError>
    ensures { IfOk result (λ l. l ≡ creation_lack client.now object (newborn client.now object payload.now)) }
{
    match newborn_judged(alloc, client.catalog(), client.store(), object, payload)? {
        Err(_) => Ok(None),
        Ok(new) => {
            let instance = new.number;
            Ok(client.lack_of_room(InstancePath { object, instance }, &new.given))
        }
    }
}

impl Client {
    /// For what there is no room, if an instance is given this.
    fn lack_of_room(&self, place: InstancePath, given: &Assignments) -> Option<NoRoom>
        ensures { result ≡ creation_lack self.now place.object
            (Some (record { number = place.instance; given = given.now })) }
    {
        let resources = defined(&self.catalog, place.object);
        lack_of_room(&self.store, self.account_count(), resources, place, given)
    }

    /// Makes an instance that is not there, and for which there is room, with what it is given.
    fn make(
        &mut self,
        server: u16,
        place: InstancePath,
        given: Assignments,
    ) -> Result<(), AllocError>
        requires other { place.object ≢ access_control_object }
        requires free { has_instance self.old.store place ≡ false }
        requires room { lacks_room self.old place.object (Some (record { number = place.instance; given = given }))
            ≡ false }
        ensures { OnOk result (self.new ≡ with_stored self.old
            (with_created self.old.store (length self.old.accounts) server
            (resources_defined self.old.catalog place.object) (place_of place.object place.instance) given)) }
    {
        let accounts = self.accounts.len();
        let resources = defined(&self.catalog, place.object);
        match device_instances::create(&mut self.store, accounts, server, resources, place, given) {
            Ok(()) => Ok(()),
            Err(StoreFault::Memory) => Err(AllocError),
            Err(_) => unreachable!(),
        }
    }

    /// Makes an instance that is not there with what it is given, where there is room.
    fn place(
        &mut self,
        server: u16,
        place: InstancePath,
        given: Assignments,
    ) -> Result<Answer, AllocError>
        requires other { place.object ≢ access_control_object }
        requires free { has_instance self.old.store place ≡ false }
        ensures outcome { IfOk result (λ a. let new = Some (record { number = place.instance; given = given }) in
            Leaves a self.new (create_unless (first_line
            ((lacks_room self.old place.object new, Ruling.Limit) ∷ []))
            self.old server place.object new)) }
        ensures room { OnErr result (lacks_room self.old place.object
            (Some (record { number = place.instance; given = given })) ≡ false) }
    {
        if self.lack_of_room(place, &given).is_some() {
            return Ok(Answer::bare(self.alloc, Ruling::Limit));
        }
        self.make(server, place, given)?;
        Ok(Answer::created(self.alloc, place))
    }

    /// Makes an instance of what a payload gives, where that is good.
    fn create_in(&mut self, server: u16, object: u16, payload: &[u8]) -> Result<Answer, AllocError>
        requires { object ≢ access_control_object }
        ensures { IfOk result (λ a. let new = newborn self.old object payload.now in
            Leaves a self.new (create_unless (first_line ((not (is_some new), Ruling.Payload)
            ∷ (lacks_room self.old object new, Ruling.Limit) ∷ [])) self.old server object new)) }
    {
        let judged = newborn_judged(self.alloc, &self.catalog, &self.store, object, payload)?;
        let Ok(new) = judged else {
            return Ok(Answer::bare(self.alloc, Ruling::Payload));
        };
        let instance = new.number;
        self.place(server, InstancePath { object, instance }, new.given)
    }

    /// Makes an instance of an object, where no rule refuses it.
    pub(crate) fn create(
        &mut self,
        server: u16,
        path: Path,
        number: Option<u16>,
        payload: &[u8],
    ) -> Result<Answer, AllocError>
        ensures outcome { IfOk result
            (λ a. Leaves a self.new (create_outcome self.old server path number payload.now)) }

        // Only what the payload gives takes memory.
        ensures may_lack_memory { OnErr result
            (takes_memory (create_outcome self.old server path number payload.now).answer.ruling ≡ true) }
        ensures allowed { OnErr result
            (code_of (create_outcome self.old server path number payload.now).answer.ruling ≢ Code.MethodNotAllowed) }
        ensures makes { OnErr result (is_fixed (object_in path) ≡ false) }
    {
        if path.object() == SECURITY {
            return Ok(Answer::bare(self.alloc, Ruling::Security));
        }
        if !exists(&self.catalog, &self.store, path) {
            return Ok(Answer::bare(self.alloc, Ruling::Target));
        }
        if !self.rights(server, path).create {
            return Ok(Answer::bare(self.alloc, Ruling::Right));
        }
        if is_fixed(path.object()) {
            return Ok(Answer::bare(self.alloc, Ruling::Operation));
        }
        if !is_tlv(number) {
            return Ok(Answer::bare(self.alloc, Ruling::ContentFormat));
        }
        self.create_in(server, path.object(), payload)
    }
}
