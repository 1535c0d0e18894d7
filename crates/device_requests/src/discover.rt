//! A Discover: its rules, and the links that it answers (RFC 6690).

ghost use Rattle.std.specs.Prelude.{◌≡◌, ◌++◌, ◌∷◌, [], true, false, IfOk, OnErr, OnOk, string_bytes};
ghost use Rattle.std.specs.List.{filter, flat_map};
ghost use Rattle.lwm2m_payloads.specs.Nodes.{within_limit};
ghost use Rattle.device_requests.specs.Discover.{attribute_text, attributes_text, dimension, dimension_text};
ghost use Rattle.device_requests.specs.Discover.{existing_resources, fraction_text, inherits_at, instance_paths};
ghost use Rattle.device_requests.specs.Discover.{is_period, link, link_parameters, linked_paths, links_text};
ghost use Rattle.device_requests.specs.Discover.{more_links, name_text, number_text, paths_below, shown_attribute};
ghost use Rattle.device_requests.specs.Discover.{shown_number, thousandths_text, unsigned_text};
ghost use Rattle.device_requests.specs.Inside.{beginning};
ghost use Rattle.device_requests.specs.Outcomes.{discover_answer};
ghost use Rattle.device_requests.specs.Ruling.{takes_memory};
ghost use Rattle.device_requests.specs.Targets.{exists};

use crate::answer::Answer;
use crate::client::Client;
use crate::operation::LINK_FORMAT;
use crate::ruling::Ruling;
use crate::targets::{defined, definition_at, exists, is_multiple, resource_place};
use instance_store::Store;
use notifier::{Attributes, Name};
use object_defs::object_number::SECURITY;
use object_defs::{Catalog, InstancePath, Path, ResourceDef, path_text};
use octets::Bytes;
use std::alloc::{AllocError, Global};

/// The greatest payload of a reply, in bytes (this profile).
const LARGEST_PAYLOAD: usize = 1024;

/// How many parts a multiple resource holds.
fn dimension(catalog: &Catalog, store: &Store, path: Path) -> usize
    ensures { result ≡ dimension catalog.now store.now path }
{
    match path {
        Path::Object(_) | Path::Instance(_, _) | Path::Part(_, _, _, _) => 0,
        Path::Resource(object, instance, resource) => {
            let place = resource_place(object, instance, resource);
            if is_multiple(definition_at(catalog, path)) {
                store.part_count(place)
            } else {
                0
            }
        }
    }
}

/// `;dim=N` for a number of parts above 0.
fn put_dimension(alloc: Global, text: &mut Vec<u8>, count: usize) -> Result<(), AllocError>
    ensures { OnOk result (text.new.items ≡ text.old.items ++ dimension_text count) }
{
    if count > 0 {
        let more = format!(in alloc; ";dim={count}")?;
        text.extend_from_slice(more.as_bytes())?;
    }
    Ok(())
}

/// The name of an attribute as it is written.
fn name_text(name: Name) -> &'static str
    ensures { result.now ≡ name_text name }
{
    match name {
        Name::Pmin => "pmin",
        Name::Pmax => "pmax",
        Name::Gt => "gt",
        Name::Lt => "lt",
        Name::St => "st",
    }
}

/// The digits of thousandths below 1,000 after a point, with no needless zero.
fn fraction_text(alloc: Global, fraction: u64) -> Result<String, AllocError>
    ensures { IfOk result (λ t. string_bytes t ≡ fraction_text fraction) }
{
    let tenths = fraction / 100;
    let hundredths = fraction / 10 % 10;
    let last = fraction % 10;
    if fraction == 0 {
        return Ok(String::new(alloc));
    }
    if fraction % 100 == 0 {
        return format!(in alloc; ".{tenths}");
    }
    if fraction % 10 == 0 {
        return format!(in alloc; ".{tenths}{hundredths}");
    }
    format!(in alloc; ".{tenths}{hundredths}{last}")
}

/// A number of thousandths without its sign.
fn unsigned_text(alloc: Global, number: u64) -> Result<String, AllocError>
    ensures { IfOk result (λ t. string_bytes t ≡ unsigned_text number) }
{
    let whole = number / 1000;
    let fraction = fraction_text(alloc, number % 1000)?;
    format!(in alloc; "{whole}{fraction}")
}

/// A number of thousandths, as `-0.5` or `50`.
pub fn thousandths_text(alloc: Global, number: i64) -> Result<String, AllocError>
    ensures { IfOk result (λ t. string_bytes t ≡ thousandths_text number) }
{
    let text = unsigned_text(alloc, number.unsigned_abs())?;
    if number < 0 {
        return format!(in alloc; "-{text}");
    }
    Ok(text)
}

/// Whether an attribute is a period, in seconds.
fn is_period(name: Name) -> bool
    ensures { result ≡ is_period name }
{
    match name {
        Name::Pmin | Name::Pmax => true,
        Name::Gt | Name::Lt | Name::St => false,
    }
}

/// The number of an attribute as it is written.
fn number_text(alloc: Global, name: Name, number: i64) -> Result<String, AllocError>
    ensures { IfOk result (λ t. string_bytes t ≡ number_text name number) }
{
    if is_period(name) {
        return format!(in alloc; "{number}");
    }
    thousandths_text(alloc, number)
}

/// The number of an attribute of a server that a link shows.
fn shown_number(
    attributes: &Attributes,
    server: u16,
    inherits: bool,
    path: Path,
    name: Name,
) -> Option<i64>
    ensures { result ≡ shown_number attributes.now server inherits path name }
{
    if inherits && is_period(name) {
        return attributes.effective(server, path, name);
    }
    attributes.assigned(server, path, name)
}

/// `;name=number` for an attribute that has a number.
fn put_attribute(
    alloc: Global,
    text: &mut Vec<u8>,
    name: Name,
    number: Option<i64>,
) -> Result<(), AllocError>
    ensures { OnOk result (text.new.items ≡ text.old.items ++ attribute_text name number) }
{
    let Some(number) = number else {
        return Ok(());
    };
    let written = number_text(alloc, name, number)?;
    let name = name_text(name);
    let more = format!(in alloc; ";{name}={written}")?;
    text.extend_from_slice(more.as_bytes())?;
    Ok(())
}

/// Whether the link of a Discover's target shows the periods that it inherits.
fn inherits_at(path: Path) -> bool
    ensures { result ≡ inherits_at path }
{
    match path {
        Path::Resource(_, _, _) => true,
        Path::Object(_) | Path::Instance(_, _) | Path::Part(_, _, _, _) => false,
    }
}

/// The links of a Discover: those of what is managed, with the attributes of a server.
#[derive(Drop)]
struct Listing<'a> {
    alloc: Global,
    client: &'a Client,
    server: u16,
}

impl<'a> Listing<'a> {
    /// An attribute that a link shows.
    fn put_shown(
        &self,
        text: &mut Vec<u8>,
        inherits: bool,
        path: Path,
        name: Name,
    ) -> Result<(), AllocError>
        ensures { OnOk result (text.new.items ≡ text.old.items
            ++ shown_attribute self.now.client.now.attributes self.now.server inherits path name) }
    {
        let number = shown_number(self.client.attributes(), self.server, inherits, path, name);
        put_attribute(self.alloc, text, name, number)
    }

    /// The attributes that a link shows, in the order of the names.
    fn put_attributes(
        &self,
        text: &mut Vec<u8>,
        inherits: bool,
        path: Path,
    ) -> Result<(), AllocError>
        ensures { OnOk result (text.new.items ≡ text.old.items
            ++ attributes_text self.now.client.now.attributes self.now.server inherits path) }
    {
        self.put_shown(text, inherits, path, Name::Pmin)?;
        self.put_shown(text, inherits, path, Name::Pmax)?;
        self.put_shown(text, inherits, path, Name::Gt)?;
        self.put_shown(text, inherits, path, Name::Lt)?;
        self.put_shown(text, inherits, path, Name::St)
    }

    /// What stands after the target of a link.
    fn put_behind(&self, text: &mut Vec<u8>, inherits: bool, path: Path) -> Result<(), AllocError>
        ensures { OnOk result (text.new.items ≡ text.old.items
            ++ link_parameters self.now.client.now self.now.server inherits path) }
    {
        let count = dimension(self.client.catalog(), self.client.store(), path);
        put_dimension(self.alloc, text, count)?;
        self.put_attributes(text, inherits, path)
    }

    /// A link, after what is there.
    fn put_link(&self, text: &mut Vec<u8>, inherits: bool, path: Path) -> Result<(), AllocError>
        ensures { OnOk result (text.new.items ≡ text.old.items
            ++ link self.now.client.now self.now.server inherits path) }
    {
        let target = path_text(self.alloc, path)?;
        text.push(b'<')?;
        text.extend_from_slice(target.as_bytes())?;
        text.push(b'>')?;
        self.put_behind(text, inherits, path)
    }

    /// A comma and a link, after what is there.
    fn put_next(&self, text: &mut Vec<u8>, path: Path) -> Result<(), AllocError>
        ensures { OnOk result (text.new.items ≡ text.old.items
            ++ 44 ∷ link self.now.client.now self.now.server false path) }
    {
        text.push(b',')?;
        self.put_link(text, false, path)
    }

    /// A comma and a link where the path exists.
    fn put_existing(&self, text: &mut Vec<u8>, path: Path) -> Result<(), AllocError>
        ensures { OnOk result (let client = self.now.client.now in text.new.items ≡ text.old.items
            ++ more_links client self.now.server (filter (exists client.catalog client.store) (path ∷ []))) }
    {
        if exists(self.client.catalog(), self.client.store(), path) {
            return self.put_next(text, path);
        }
        Ok(())
    }

    /// A comma and a link for each of these resources of an instance that exists; none past a text that is too long.
    fn put_resources(
        &self,
        text: &mut Vec<u8>,
        place: InstancePath,
        resources: &[ResourceDef],
    ) -> Result<(), AllocError>
        ensures { OnOk result (let client = self.now.client.now in beginning text.new.items
            ≡ beginning (text.old.items ++ more_links client self.now.server
            (existing_resources client.catalog client.store place.object place.instance resources.now))) }
    {
        for definition in resources {
            if text.len() > LARGEST_PAYLOAD {
                return Ok(());
            }
            let path = Path::Resource(place.object, place.instance, definition.id);
            self.put_existing(text, path)?;
        }
        Ok(())
    }

    /// A comma and a link for an instance, and for each of its resources that exists.
    fn put_instance(&self, text: &mut Vec<u8>, place: InstancePath) -> Result<(), AllocError>
        ensures { OnOk result (let client = self.now.client.now in beginning text.new.items
            ≡ beginning (text.old.items ++ more_links client self.now.server
            (instance_paths client.catalog client.store place.object place.instance))) }
    {
        self.put_next(text, Path::Instance(place.object, place.instance))?;
        self.put_resources(text, place, defined(self.client.catalog(), place.object))
    }

    /// A comma and a link for each of these instances of an object, and for each of its resources; none past a text
    /// that is too long.
    fn put_instances(
        &self,
        text: &mut Vec<u8>,
        object: u16,
        instances: &[u16],
    ) -> Result<(), AllocError>
        ensures { OnOk result (let client = self.now.client.now in beginning text.new.items
            ≡ beginning (text.old.items ++ more_links client self.now.server
            (flat_map (instance_paths client.catalog client.store object) instances.now))) }
    {
        for instance in instances {
            if text.len() > LARGEST_PAYLOAD {
                return Ok(());
            }
            let instance = *instance;
            self.put_instance(text, InstancePath { object, instance })?;
        }
        Ok(())
    }

    /// A comma and a link for each path below this one.
    fn put_below(&self, text: &mut Vec<u8>, path: Path) -> Result<(), AllocError>
        ensures { OnOk result (let client = self.now.client.now in beginning text.new.items
            ≡ beginning (text.old.items
            ++ more_links client self.now.server (paths_below client.catalog client.store path))) }
    {
        match path {
            Path::Object(object) => {
                self.put_instances(text, object, self.client.store().instances(object))
            }
            Path::Instance(object, instance) => {
                let resources = defined(self.client.catalog(), object);
                self.put_resources(text, InstancePath { object, instance }, resources)
            }
            Path::Resource(_, _, _) | Path::Part(_, _, _, _) => Ok(()),
        }
    }

    /// The links of a path and of what lies below it, joined by commas, where they fit a payload.
    fn links(&self, path: Path) -> Result<Option<Bytes>, AllocError>
        ensures { IfOk result (λ b. let client = self.now.client.now in
            b ≡ within_limit (links_text client self.now.server (linked_paths client.catalog client.store path))) }
    {
        let mut text = Vec::new(self.alloc);
        self.put_link(&mut text, inherits_at(path), path)?;
        self.put_below(&mut text, path)?;
        let payload = Bytes::from_vec(text);
        if payload.len() > LARGEST_PAYLOAD {
            return Ok(None);
        }
        Ok(Some(payload))
    }
}

impl Client {
    /// The answer to a Discover.
    pub(crate) fn discover(&self, server: u16, path: Path) -> Result<Answer, AllocError>
        ensures answer { IfOk result (λ a. a ≡ discover_answer self.now server path) }
        ensures may_lack_memory { OnErr result (takes_memory (discover_answer self.now server path).ruling ≡ true) }
    {
        if path.object() == SECURITY {
            return Ok(Answer::bare(self.alloc, Ruling::Security));
        }
        if !exists(&self.catalog, &self.store, path) {
            return Ok(Answer::bare(self.alloc, Ruling::Target));
        }
        let listing = Listing {
            alloc: self.alloc,
            client: self,
            server,
        };
        match listing.links(path)? {
            None => Ok(Answer::bare(self.alloc, Ruling::Limit)),
            Some(payload) => Ok(Answer::content(LINK_FORMAT, payload)),
        }
    }
}
