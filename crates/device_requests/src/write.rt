//! A Write: its rules, which targets it has, what its payload gives, and how that is set.

ghost use Rattle.std.specs.Prelude.{◌≡◌, ◌==◌, ◌∷◌, [], true, false, not, IfOk, OnErr, OnOk, Some, None};
ghost use Rattle.std.specs.Option.{is_some, unwrap_or};
ghost use Rattle.std.specs.Result.{result_err};
ghost use Rattle.device_firmware.specs.Firmware.{firmware_after, is_ready};
ghost use Rattle.instance_store.specs.Stored.{has_instance, instance_of};
ghost use Rattle.lwm2m_payloads.specs.Changes.{has_too_many, instance_written, is_kept_as};
ghost use Rattle.object_defs.specs.Lines.{first_line};
ghost use Rattle.device_requests.specs.Answer.{Leaves};
ghost use Rattle.device_requests.specs.Read.{format_at};
ghost use Rattle.device_requests.specs.Inside.{give, has_place, value_rules};
ghost use Rattle.device_requests.specs.Outcomes.{write_outcome};
ghost use Rattle.device_requests.specs.Refusals.{can_be_written, is_target, is_writable};
ghost use Rattle.device_requests.specs.Ruling.{takes_memory};
ghost use Rattle.device_requests.specs.Write.{event_of, given_to_part, given_to_resource};
ghost use Rattle.device_requests.specs.Write.{mode_at, new_values, package_in, resource_excess};
ghost use Rattle.device_requests.specs.Write.{resource_written, uri_in, values_exceed, values_excess, values_given};
ghost use Rattle.device_requests.specs.Write.{values_judged, values_written, write_excess, write_unless};

use crate::answer::Answer;
use crate::client::Client;
use crate::ruling::Ruling;
use crate::targets::{
    defined, definition_at, is_multiple, is_readable, is_resource, resource_place,
};
use device_firmware::{FirmwareEvent, take};
use instance_store::{Store, StoreFault};
use lwm2m_payloads::{
    Assignments, Excess, Format, Given, Mode, PayloadFault, excess_of, first_excess, format_for,
    instance_given, part_given, resource_given, set_given, write_instance,
};
use lwm2m_values::Value;
use object_defs::object_number::{FIRMWARE_UPDATE, SECURITY};
use object_defs::resource_number::{PACKAGE, PACKAGE_URI};
use object_defs::{Catalog, InstancePath, Path, ResourceDef, ResourcePath};
use std::alloc::{AllocError, Global};

/// What the payload of a Write gives.
#[derive(Drop)]
enum NewValues {
    /// To resources of an instance.
    Several(Assignments),
    /// To one resource, or to a part of it.
    One(Given),
}

/// Whether a path exists for a Write: a resource where it is defined, a part where its resource is
/// multiple, both in an instance that exists.
fn is_target(catalog: &Catalog, store: &Store, path: Path) -> bool
    ensures { result ≡ is_target catalog.now store.now path }
{
    let definition = definition_at(catalog, path);
    match path {
        Path::Object(_) => false,
        Path::Instance(object, instance) => {
            catalog.object(object).is_some()
                && store.has_instance(InstancePath { object, instance })
        }
        Path::Resource(object, instance, _) => {
            definition.is_some() && store.has_instance(InstancePath { object, instance })
        }
        Path::Part(object, instance, _, _) => {
            is_multiple(definition) && store.has_instance(InstancePath { object, instance })
        }
    }
}

/// Whether a resource is defined, and can be written.
pub fn is_writable(definition: Option<ResourceDef>) -> bool
    ensures { result ≡ is_writable definition }
{
    match definition {
        None => false,
        Some(definition) => definition.ops.can_write(),
    }
}

/// Whether what the path names can be written.
fn can_be_written(catalog: &Catalog, path: Path) -> bool
    ensures { result ≡ can_be_written catalog.now path }
{
    match path {
        Path::Object(_) => false,
        Path::Instance(object, _) => object != FIRMWARE_UPDATE,
        Path::Resource(_, _, _) | Path::Part(_, _, _, _) => {
            is_writable(definition_at(catalog, path))
        }
    }
}

/// What writing this as the Package is to the firmware.
fn package_in(values: &NewValues) -> Option<FirmwareEvent>
    ensures { result ≡ package_in values.now }
{
    match values {
        NewValues::One(given) => match given {
            Given::Single(value) => match value {
                Value::Opaque(bytes) => Some(FirmwareEvent::of_package(bytes.as_slice())),
                _ => None,
            },
            Given::Parts(_) => None,
        },
        NewValues::Several(_) => None,
    }
}

/// What writing this as the Package URI is to the firmware.
fn uri_in(values: &NewValues) -> Result<Option<FirmwareEvent>, AllocError>
    ensures event { IfOk result (λ e. e ≡ uri_in values.now) }
    ensures may_lack_memory { OnErr result (is_some (uri_in values.now) ≡ true) }
{
    match values {
        NewValues::One(given) => match given {
            Given::Single(value) => match value {
                Value::Text(text) => {
                    let text = text.clone()?;
                    Ok(Some(FirmwareEvent::of_uri(text)))
                }
                _ => Ok(None),
            },
            Given::Parts(_) => Ok(None),
        },
        NewValues::Several(_) => Ok(None),
    }
}

/// What writing this is to the firmware.
fn event_of(path: Path, values: &NewValues) -> Result<Option<FirmwareEvent>, AllocError>
    ensures event { IfOk result (λ e. e ≡ event_of path (Some values.now)) }
    ensures may_lack_memory { OnErr result (is_some (event_of path (Some values.now)) ≡ true) }
{
    if is_resource(FIRMWARE_UPDATE, PACKAGE, path) {
        return Ok(package_in(values));
    }
    if is_resource(FIRMWARE_UPDATE, PACKAGE_URI, path) {
        return uri_in(values);
    }
    Ok(None)
}

/// What a payload gives to the resource of this definition, or what of it is at fault. Where there is no definition,
/// there is no target, and nobody is told the fault.
fn given_to_resource(
    alloc: Global,
    definition: Option<ResourceDef>,
    format: Format,
    payload: &[u8],
) -> Result<Result<Given, PayloadFault>, AllocError>
    ensures given { IfOk result (λ g. g ≡ given_to_resource definition format payload.now) }
    ensures defined { OnErr result (is_some definition ≡ true) }
{
    match definition {
        None => Ok(Err(PayloadFault::NotTlv)),
        Some(definition) => resource_given(alloc, definition, format, payload),
    }
}

/// The same for a part of the resource of this definition.
fn given_to_part(
    alloc: Global,
    definition: Option<ResourceDef>,
    part: u16,
    format: Format,
    payload: &[u8],
) -> Result<Result<Given, PayloadFault>, AllocError>
    ensures given { IfOk result (λ g. g ≡ given_to_part definition part format payload.now) }
    ensures defined { OnErr result (is_some definition ≡ true) }
{
    match definition {
        None => Ok(Err(PayloadFault::NotTlv)),
        Some(definition) => part_given(alloc, definition, part, format, payload),
    }
}

/// What a payload gives at a path, or what of it is at fault.
fn values_judged(
    alloc: Global,
    catalog: &Catalog,
    path: Path,
    payload: &[u8],
    format: Format,
) -> Result<Result<NewValues, PayloadFault>, AllocError>
    ensures { IfOk result (λ g. g ≡ values_judged catalog.now path payload.now format) }
{
    let definition = definition_at(catalog, path);
    match path {
        Path::Object(_) => Ok(Err(PayloadFault::NotTlv)),
        Path::Instance(object, instance) => {
            let given = instance_given(alloc, defined(catalog, object), instance, payload)?;
            Ok(given.map(NewValues::Several))
        }
        Path::Resource(_, _, _) => {
            let given = given_to_resource(alloc, definition, format, payload)?;
            Ok(given.map(NewValues::One))
        }
        Path::Part(_, _, _, part) => {
            let given = given_to_part(alloc, definition, part, format, payload)?;
            Ok(given.map(NewValues::One))
        }
    }
}

/// What of a payload of this format is at fault in a Write at a path, if something is. A Write is refused by this very
/// judgement.
pub fn payload_fault(
    alloc: Global,
    catalog: &Catalog,
    path: Path,
    payload: &[u8],
    format: Format,
) -> Result<Option<PayloadFault>, AllocError>
    ensures { IfOk result (λ f. f ≡ result_err (values_judged catalog.now path payload.now format)) }
{
    let judged = values_judged(alloc, catalog, path, payload, format)?;
    Ok(judged.err())
}

/// How a Write at the path treats the parts that it does not name.
pub fn mode_at(mode: Mode, path: Path) -> Mode
    ensures { result ≡ mode_at mode path }
{
    match path {
        Path::Object(_) | Path::Instance(_, _) | Path::Resource(_, _, _) => mode,
        Path::Part(_, _, _, _) => Mode::Update,
    }
}

/// How many parts a resource that keeps its values would have, where these are more than it may have.
fn resource_excess(
    mode: Mode,
    definition: Option<ResourceDef>,
    store: &Store,
    place: ResourcePath,
    given: &Given,
) -> Result<Option<Excess>, AllocError>
    ensures excess { IfOk result (λ e. e ≡ resource_excess mode definition store.now place given.now) }
    ensures kept { OnErr result (is_kept_as definition ≡ true) }
{
    if !is_readable(definition) {
        return Ok(None);
    }
    let Some(count) = excess_of(mode, store, place, given)? else {
        return Ok(None);
    };
    Ok(Some(Excess {
        resource: place.resource,
        count,
    }))
}

/// The first resource that would have more parts than it may.
fn values_excess(
    mode: Mode,
    catalog: &Catalog,
    store: &Store,
    path: Path,
    values: &NewValues,
) -> Result<Option<Excess>, AllocError>
    ensures { IfOk result (λ e. e ≡ values_excess mode catalog.now store.now path values.now) }
{
    let definition = definition_at(catalog, path);
    match values {
        NewValues::Several(given) => match path {
            Path::Instance(object, instance) => {
                let place = InstancePath { object, instance };
                first_excess(mode, defined(catalog, object), store, place, given)
            }
            Path::Object(_) | Path::Resource(_, _, _) | Path::Part(_, _, _, _) => Ok(None),
        },
        NewValues::One(given) => match path {
            Path::Resource(object, instance, resource)
            | Path::Part(object, instance, resource, _) => {
                let place = resource_place(object, instance, resource);
                resource_excess(mode, definition, store, place, given)
            }
            Path::Object(_) | Path::Instance(_, _) => Ok(None),
        },
    }
}

/// The first resource that would have more parts than it may after a Write with the Content-Format of this number, if
/// that gives something.
pub fn write_excess(
    alloc: Global,
    client: &Client,
    mode: Mode,
    path: Path,
    number: Option<u16>,
    payload: &[u8],
) -> Result<Option<Excess>, AllocError>
    ensures { IfOk result (λ e. e ≡ write_excess client.now mode path number payload.now) }
{
    let catalog = client.catalog();
    let Some(format) = format_for(path, definition_at(catalog, path), number) else {
        return Ok(None);
    };
    let Ok(values) = values_judged(alloc, catalog, path, payload, format)? else {
        return Ok(None);
    };
    values_excess(mode_at(mode, path), catalog, client.store(), path, &values)
}

/// Sets what is given to a resource of an instance that is there, where it keeps its values and has no more parts then
/// than it may.
#[tactic(auto, using(crate::proofs::Fitting::fits))]
fn write_resource(
    mode: Mode,
    definition: Option<ResourceDef>,
    store: &mut Store,
    place: ResourcePath,
    given: Given,
) -> Result<(), AllocError>
    requires there { has_instance store.old (instance_of place) ≡ true }
    requires room { is_some (resource_excess mode definition store.old place given) ≡ false }
    ensures written { OnOk result (store.new ≡ resource_written mode definition store.old place given) }
    ensures kept { OnErr result (is_kept_as definition ≡ true) }
{
    if !is_readable(definition) {
        return Ok(());
    }
    match set_given(mode, store, place, given) {
        Ok(()) => Ok(()),
        Err(StoreFault::Memory) => Err(AllocError),
        Err(_) => unreachable!(),
    }
}

/// Sets what is given to the resources of an instance that is there, where none has more parts then
/// than it may.
fn write_resources(
    mode: Mode,
    resources: &[ResourceDef],
    store: &mut Store,
    place: InstancePath,
    given: Assignments,
) -> Result<(), AllocError>
    requires there { has_instance store.old place ≡ true }
    requires room { has_too_many mode resources.now store.old place given ≡ false }
    ensures { OnOk result (store.new ≡ instance_written mode resources.now store.old place given) }
{
    match write_instance(mode, resources, store, place, given) {
        Ok(()) => Ok(()),
        Err(StoreFault::Memory) => Err(AllocError),
        Err(_) => unreachable!(),
    }
}

/// Sets what is given in an instance that is there, where it does not exceed what a resource may
/// have. After an error a part of several values may be set.
fn write_at(
    mode: Mode,
    catalog: &Catalog,
    store: &mut Store,
    path: Path,
    values: NewValues,
) -> Result<(), AllocError>
    requires there { has_place store.old path ≡ true }
    requires room { values_exceed mode catalog.now store.old path values ≡ false }
    ensures { OnOk result (store.new ≡ values_written mode catalog.now store.old path values) }
{
    let definition = definition_at(catalog, path);
    match values {
        NewValues::Several(given) => match path {
            Path::Instance(object, instance) => {
                let place = InstancePath { object, instance };
                write_resources(mode, defined(catalog, object), store, place, given)
            }
            Path::Object(_) | Path::Resource(_, _, _) | Path::Part(_, _, _, _) => Ok(()),
        },
        NewValues::One(given) => match path {
            Path::Resource(object, instance, resource)
            | Path::Part(object, instance, resource, _) => {
                let place = resource_place(object, instance, resource);
                write_resource(mode, definition, store, place, given)
            }
            Path::Object(_) | Path::Instance(_, _) => Ok(()),
        },
    }
}

impl Client {
    /// Sets what a payload gives in an instance that is there, where no resource would have more parts
    /// than it may.
    fn set(&mut self, mode: Mode, path: Path, values: NewValues) -> Result<Answer, AllocError>
        requires { has_place self.old.store path ≡ true }
        ensures { IfOk result (λ a. Leaves a self.new
            (write_unless (first_line
            ((values_exceed mode self.old.catalog self.old.store path values, Ruling.Limit) ∷ []))
            self.old (values_written mode self.old.catalog self.old.store path values))) }
    {
        if values_excess(mode, &self.catalog, &self.store, path, &values)?.is_some() {
            return Ok(Answer::bare(self.alloc, Ruling::Limit));
        }
        write_at(mode, &self.catalog, &mut self.store, path, values)?;
        Ok(Answer::bare(self.alloc, Ruling::Changed))
    }

    /// Applies to the firmware what was written, if its State allows that.
    fn turn(&mut self, event: FirmwareEvent) -> Result<Answer, AllocError>
        ensures outcome { IfOk result (λ a. Leaves a self.new
            (write_unless (first_line
            ((not (is_some (firmware_after self.old.store event)), Ruling.State) ∷ []))
            self.old (unwrap_or (firmware_after self.old.store event) self.old.store))) }

        // Only if its State allows it, and what changes is not all held.
        ensures taken { OnErr result (is_some (firmware_after self.old.store event) ≡ true) }
        ensures may_lack_memory { OnErr result (is_ready self.old.store event ≡ false) }
    {
        if take(self.alloc, &mut self.store, event)? {
            return Ok(Answer::bare(self.alloc, Ruling::Changed));
        }
        Ok(Answer::bare(self.alloc, Ruling::State))
    }

    /// Writes what a payload of a format gives in an instance that is there, where its values are good.
    fn write_in(
        &mut self,
        mode: Mode,
        path: Path,
        format: Format,
        payload: &[u8],
    ) -> Result<Answer, AllocError>
        requires { has_place self.old.store path ≡ true }
        ensures { IfOk result (λ a. let values = values_given self.old.catalog path payload.now format in
            Leaves a self.new (give (value_rules self.old mode path values) self.old mode path values)) }
    {
        let Ok(values) = values_judged(self.alloc, &self.catalog, path, payload, format)? else {
            return Ok(Answer::bare(self.alloc, Ruling::Payload));
        };
        match event_of(path, &values)? {
            Some(event) => self.turn(event),
            None => self.set(mode_at(mode, path), path, values),
        }
    }

    /// Writes what a payload gives in an instance that is there, where its format is served and its
    /// values are good.
    fn write_payload(
        &mut self,
        mode: Mode,
        path: Path,
        number: Option<u16>,
        payload: &[u8],
    ) -> Result<Answer, AllocError>
        requires { has_place self.old.store path ≡ true }
        ensures outcome { IfOk result (λ a. let values = new_values self.old path number payload.now in
            Leaves a self.new (give
            ((not (is_some (format_at self.old.catalog path number)), Ruling.ContentFormat)
            ∷ value_rules self.old mode path values) self.old mode path values)) }
        ensures may_lack_memory { OnErr result (is_some (format_at self.old.catalog path number) ≡ true) }
    {
        let Some(format) = format_for(path, definition_at(&self.catalog, path), number) else {
            return Ok(Answer::bare(self.alloc, Ruling::ContentFormat));
        };
        self.write_in(mode, path, format, payload)
    }

    /// Writes what a payload gives in the format of this number, where no rule refuses it.
    #[tactic(auto, using(crate::proofs::Present::target_has))]
    pub(crate) fn write(
        &mut self,
        server: u16,
        mode: Mode,
        path: Path,
        number: Option<u16>,
        payload: &[u8],
    ) -> Result<Answer, AllocError>
        ensures outcome { IfOk result
            (λ a. Leaves a self.new (write_outcome self.old server mode path number payload.now)) }

        // Only what the payload gives takes memory.
        ensures may_lack_memory { OnErr result
            (takes_memory (write_outcome self.old server mode path number payload.now).answer.ruling ≡ true) }
        ensures allowed { OnErr result (can_be_written self.old.catalog path ≡ true) }
    {
        if path.object() == SECURITY {
            return Ok(Answer::bare(self.alloc, Ruling::Security));
        }
        if !is_target(&self.catalog, &self.store, path) {
            return Ok(Answer::bare(self.alloc, Ruling::Target));
        }
        if !self.rights(server, path).write {
            return Ok(Answer::bare(self.alloc, Ruling::Right));
        }
        if !can_be_written(&self.catalog, path) {
            return Ok(Answer::bare(self.alloc, Ruling::Operation));
        }
        self.write_payload(mode, path, number, payload)
    }
}
