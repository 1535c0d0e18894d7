//! A Read: its rules, and the payload that it answers.

ghost use Rattle.std.specs.Prelude.{◌≡◌, ◌≢◌, ℕ, false, true, IfOk, IfSome, None, OnErr, Some};
ghost use Rattle.std.specs.Fmt.{signed_decimal};
ghost use Rattle.lwm2m_values.specs.Tree.{part, single};
ghost use Rattle.lwm2m_values.specs.Value.{text_of};
ghost use Rattle.lwm2m_payloads.specs.declared.format.Format.{Format};
ghost use Rattle.lwm2m_payloads.specs.Nodes.{value_payload, within_limit};
ghost use Rattle.device_requests.specs.Access.{shown_instances};
ghost use Rattle.device_requests.specs.Answer.{content};
ghost use Rattle.device_requests.specs.Outcomes.{read_answer};
ghost use Rattle.device_requests.specs.Read.{object_payload, one_payload, payload_in, values_payload};
ghost use Rattle.device_requests.specs.Refusals.{can_be_read, is_oversized};
ghost use Rattle.device_requests.specs.Ruling.{code_of, takes_memory};
ghost use Rattle.device_requests.specs.Targets.{definition_at, exists};

use crate::answer::{Answer, Code};
use crate::client::Client;
use crate::ruling::Ruling;
use crate::targets::{defined, definition_at, exists_as, is_multiple, is_readable, resource_place};
use access_control::shown_instances;
use instance_store::Store;
use lwm2m_payloads::{Format, format_for, object_tlv, values_tlv, write_part, write_single};
use lwm2m_values::Value;
use object_defs::object_number::SECURITY;
use object_defs::{Catalog, Path, ResourceDef, ResourcePath};
use octets::Bytes;
use std::alloc::AllocError;

/// Whether what the path names can be read, by the definition of its resource. The catalog is for the contract alone,
/// which says whose definition it is.
fn can_be_read(_catalog: &Catalog, path: Path, definition: Option<ResourceDef>) -> bool
    requires { definition ≡ definition_at _catalog.now path }
    ensures { result ≡ can_be_read _catalog.now path }
{
    match path {
        Path::Object(_) | Path::Instance(_, _) => true,
        Path::Resource(_, _, _) | Path::Part(_, _, _, _) => is_readable(definition),
    }
}

/// The number that a value is, an Integer or a Time. Its decimal is the plain text of the value, and fits a payload.
#[tactic(auto, using(crate::proofs::Digits::digits_fit))]
fn number_of(value: &Value) -> Option<i64>
    ensures text { IfSome result (λ n. text_of value.now ≡ signed_decimal n) }
    ensures fits { IfSome result (λ _. is_oversized (text_of value.now) ≡ false) }
{
    match value {
        Value::Whole(number) | Value::Moment(number) => Some(*number),
        Value::Text(_) | Value::Flag(_) | Value::Opaque(_) | Value::Link(_, _) => None,
    }
}

impl Client {
    /// The payload of a Read of an object, where it has 1,024 bytes at most.
    fn object_payload(&self, server: u16, object: u16) -> Result<Option<Bytes>, AllocError>
        ensures { IfOk result (λ b. b ≡ within_limit (object_payload self.now server object)) }
    {
        let accounts = self.account_count();
        let instances = shown_instances(self.alloc, &self.store, accounts, server, object)?;
        let resources = defined(&self.catalog, object);
        object_tlv(
            self.alloc,
            &self.store,
            resources,
            object,
            instances.as_slice(),
        )
    }

    /// What is held at or below a path of an object and can be read, where it has 1,024 bytes at most.
    fn values_payload(&self, object: u16, path: Path) -> Result<Option<Bytes>, AllocError>
        ensures { IfOk result (λ b. b ≡ within_limit (values_payload self.now object path)) }
    {
        values_tlv(
            self.alloc,
            &self.store,
            defined(&self.catalog, object),
            path,
        )
    }

    /// The payload of a Read of a resource, where it has 1,024 bytes at most.
    fn resource_payload(
        &self,
        server: u16,
        place: ResourcePath,
        definition: Option<ResourceDef>,
        format: Format,
    ) -> Result<Option<Bytes>, AllocError>
        requires { definition ≡ definition_at self.now.catalog
            (Path.Resource place.object place.instance place.resource) }
        ensures { IfOk result (λ b. b ≡ within_limit
            (payload_in self.now server (Path.Resource place.object place.instance place.resource) format)) }
    {
        let path = Path::Resource(place.object, place.instance, place.resource);
        if is_multiple(definition) {
            return self.values_payload(place.object, path);
        }
        match self.store.get(place.single()) {
            None => Ok(Some(Bytes::new(self.alloc))),
            Some(value) => write_single(self.alloc, format, place.resource, value),
        }
    }

    /// The payload of a Read of a server, where it has 1,024 bytes at most. A call of its own, so that a Read of a
    /// single value does not pay for the lists of others.
    #[inline(never)]
    fn shown(
        &self,
        server: u16,
        path: Path,
        definition: Option<ResourceDef>,
        format: Format,
    ) -> Result<Option<Bytes>, AllocError>
        requires { definition ≡ definition_at self.now.catalog path }
        ensures { IfOk result (λ b. b ≡ within_limit (payload_in self.now server path format)) }
    {
        match path {
            Path::Object(object) => self.object_payload(server, object),
            Path::Instance(object, _) => self.values_payload(object, path),
            Path::Resource(object, instance, resource) => {
                let place = resource_place(object, instance, resource);
                self.resource_payload(server, place, definition, format)
            }
            Path::Part(object, instance, resource, part) => {
                let place = resource_place(object, instance, resource);
                match self.store.get(place.part(part)) {
                    None => Ok(Some(Bytes::new(self.alloc))),
                    Some(value) => write_part(self.alloc, format, part, value),
                }
            }
        }
    }

    /// The number and the value of the single resource that a path names, where it is defined and holds one. The path
    /// exists then, and the value is all that a Read shows there. Every Read begins with it, so it is a part of it.
    #[inline(always)]
    fn single_value(&self, path: Path, definition: Option<ResourceDef>) -> Option<(u16, &Value)>
        requires { definition ≡ definition_at self.now.catalog path }
        ensures there { IfSome result (λ _. exists self.now.catalog self.now.store path ≡ true) }
        ensures shown { IfSome result (λ found. (server : ℕ) (format : Format)
            → payload_in self.now server path format ≡ value_payload format (single found.0) found.1.now) }
    {
        let definition = definition?;
        if definition.multiple {
            return None;
        }
        match path {
            Path::Resource(object, instance, resource) => {
                let value = self
                    .store
                    .single(resource_place(object, instance, resource))?;
                Some((resource, value))
            }
            Path::Object(_) | Path::Instance(_, _) | Path::Part(_, _, _, _) => None,
        }
    }

    /// The number that a Read of a server at a path with no Accept shows, where it is that of a single Integer or Time:
    /// the answer is then 2.05 with the number's decimal as plain text. `None` says nothing of the answer, which is
    /// `read`'s. It takes no memory.
    pub fn number_read(&self, server: u16, path: Path) -> Option<i64>
        ensures { IfSome result (λ n. read_answer self.now server path None ≡ content 0 (signed_decimal n)) }
    {
        let definition = definition_at(&self.catalog, path);
        let (_, value) = self.single_value(path, definition)?;
        let number = number_of(value)?;
        if path.object() == SECURITY
            || !self.may_read(server, path)
            || !can_be_read(&self.catalog, path, definition)
        {
            return None;
        }
        match format_for(path, definition, None) {
            Some(Format::PlainText) => Some(number),
            Some(Format::OctetStream | Format::Tlv) | None => None,
        }
    }

    /// The answer to a Read of a server at a path, with the format that its Accept names; it is also that of a
    /// notification. Only 2.05 and 5.00 may take memory, and only where the target can be read.
    pub fn read(&self, server: u16, path: Path, accept: Option<u16>) -> Result<Answer, AllocError>
        ensures answer { IfOk result (λ a. a ≡ read_answer self.now server path accept) }

        // Only a payload takes memory.
        ensures may_lack_memory { OnErr result (takes_memory (read_answer self.now server path accept).ruling ≡ true) }
        ensures allowed { OnErr result (code_of (read_answer self.now server path
            accept).ruling ≢ Code.MethodNotAllowed) }
        ensures readable { OnErr result (can_be_read self.now.catalog path ≡ true) }
    {
        if path.object() == SECURITY {
            return Ok(Answer::bare(self.alloc, Ruling::Security));
        }
        let definition = definition_at(&self.catalog, path);
        let single = self.single_value(path, definition);
        if single.is_none() && !exists_as(&self.catalog, &self.store, path, definition) {
            return Ok(Answer::bare(self.alloc, Ruling::Target));
        }
        if !self.may_read(server, path) {
            return Ok(Answer::bare(self.alloc, Ruling::Right));
        }
        if !can_be_read(&self.catalog, path, definition) {
            return Ok(Answer::bare(self.alloc, Ruling::Operation));
        }
        let Some(format) = format_for(path, definition, accept) else {
            return Ok(Answer::bare(self.alloc, Ruling::Accept));
        };
        let payload = match single {
            Some((resource, value)) => write_single(self.alloc, format, resource, value),
            None => self.shown(server, path, definition, format),
        }?;
        match payload {
            None => Ok(Answer::bare(self.alloc, Ruling::Limit)),
            Some(payload) => Ok(Answer::content(format.number(), payload)),
        }
    }
}
