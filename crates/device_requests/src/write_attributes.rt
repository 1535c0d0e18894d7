//! A Write-Attributes: its rules, who may set attributes where, and what its queries change.

ghost use Rattle.std.specs.Prelude.{◌≡◌, ◌≢◌, ◌∷◌, [], true, not, IfOk, IsOk, OnErr};
ghost use Rattle.std.specs.Option.{is_some};
ghost use Rattle.notifier.specs.Query.{BeginsWithChange, changes_of, reading_of};
ghost use Rattle.object_defs.specs.Lines.{first_line};
ghost use Rattle.device_requests.specs.Answer.{Leaves};
ghost use Rattle.device_requests.specs.Options.{queries_of};
ghost use Rattle.device_requests.specs.Outcomes.{attributes_outcome};
ghost use Rattle.device_requests.specs.Refusals.{annotates, annotates_at};
ghost use Rattle.device_requests.specs.Ruling.{takes_memory};
ghost use Rattle.device_requests.specs.WriteAttributes.{new_numbers, annotate_unless, changes_given, changes_or_none};
ghost use Rattle.device_requests.specs.WriteAttributes.{is_numeric, is_numeric_kind, level_at};

use crate::answer::Answer;
use crate::client::Client;
use crate::ruling::Ruling;
use crate::targets::{definition_at, exists};
use access_control::Rights;
use coap_codec::Opt;
use coap_codec::option_number::URI_QUERY;
use lwm2m_values::ValueKind;
use notifier::{Change, Changes, Level, QueryFault, WriteFault};
use object_defs::object_number::{ACCESS_CONTROL, SECURITY};
use object_defs::{Catalog, Path, ResourceDef};
use std::alloc::{AllocError, Global};

/// Whether values of a kind are numbers.
fn is_numeric_kind(kind: ValueKind) -> bool
    ensures { result ≡ is_numeric_kind kind }
{
    match kind {
        ValueKind::Whole | ValueKind::Moment => true,
        ValueKind::Text | ValueKind::Flag | ValueKind::Opaque | ValueKind::Link => false,
    }
}

/// Whether a resource is a single one of a number.
fn is_numeric(definition: Option<ResourceDef>) -> bool
    ensures { result ≡ is_numeric definition }
{
    match definition {
        None => false,
        Some(definition) => !definition.multiple && is_numeric_kind(definition.kind),
    }
}

/// The level of a path, for attributes.
pub fn level_at(catalog: &Catalog, path: Path) -> Level
    ensures { result ≡ level_at catalog.now path }
{
    match path {
        Path::Object(_) => Level::Object,
        Path::Instance(_, _) => Level::Instance,
        Path::Resource(_, _, _) => {
            if is_numeric(definition_at(catalog, path)) {
                Level::Number
            } else {
                Level::Resource
            }
        }
        Path::Part(_, _, _, _) => Level::Resource,
    }
}

/// Whether these rights on an instance of an object let a server set attributes there.
fn annotates(rights: Rights, object: u16) -> bool
    ensures { result ≡ annotates rights object }
{
    if object == ACCESS_CONTROL {
        rights.write
    } else {
        rights.read
    }
}

/// Whether a server with these rights at a path may set attributes there.
fn annotates_at(rights: Rights, path: Path) -> bool
    ensures { result ≡ annotates_at rights path }
{
    match path {
        Path::Object(_) => true,
        Path::Instance(object, _) | Path::Resource(object, _, _) | Path::Part(object, _, _, _) => {
            annotates(rights, object)
        }
    }
}

/// These changes with that of an option after them, where it is a query, or none where it has a
/// fault.
fn with_option(changes: Changes, level: Level, option: &Opt) -> Result<Option<Changes>, AllocError>
    ensures read { IfOk result (λ c. c ≡ changes_or_none (changes_of changes level (queries_of (option.now ∷ [])))) }

    // Only a query that spells a change takes memory.
    ensures query { OnErr result (option.now.number ≡ 15) }
    ensures may_lack_memory { OnErr result (IsOk (reading_of changes level option.now.value)) }
{
    let mut changes = changes;
    if option.number != URI_QUERY {
        return Ok(Some(changes));
    }
    match changes.add_query(option.value.as_slice(), level) {
        Ok(()) => Ok(Some(changes)),
        Err(QueryFault::Memory) => Err(AllocError),
        Err(_) => Ok(None),
    }
}

/// The changes that the queries among options spell at a level, or none where one of them has a
/// fault.
fn changes_at(alloc: Global, level: Level, options: &[Opt]) -> Result<Option<Changes>, AllocError>
    ensures read { IfOk result (λ c. c ≡ changes_or_none (changes_of [] level (queries_of options.now))) }

    // Neither no query nor a first one with a fault takes memory.
    ensures may_lack_memory { OnErr result (BeginsWithChange level (queries_of options.now)) }
{
    let mut changes = Changes::new(alloc);
    for option in options {
        let Some(more) = with_option(changes, level, option)? else {
            return Ok(None);
        };
        changes = more;
    }
    Ok(Some(changes))
}

/// The changes that the queries among options spell at a path, or none where one of them has a
/// fault.
fn changes_given(
    alloc: Global,
    catalog: &Catalog,
    path: Path,
    options: &[Opt],
) -> Result<Option<Changes>, AllocError>
    ensures read { IfOk result (λ c. c ≡ changes_given catalog.now path (queries_of options.now)) }
    ensures may_lack_memory { OnErr result (BeginsWithChange (level_at catalog.now path) (queries_of options.now)) }
{
    changes_at(alloc, level_at(catalog, path), options)
}

impl Client {
    /// Sets attributes by these changes, where the numbers agree then.
    fn annotate(
        &mut self,
        server: u16,
        path: Path,
        changes: &[Change],
    ) -> Result<Answer, AllocError>
        ensures outcome { IfOk result (λ a. let given = new_numbers self.old.attributes server path changes.now in
            Leaves a self.new
            (annotate_unless (first_line ((not (is_some given), Ruling.Payload) ∷ [])) self.old given)) }

        // Only changes after which the numbers agree take memory.
        ensures may_lack_memory { OnErr result (is_some (new_numbers self.old.attributes server path changes.now)
            ≡ true) }
        ensures only_with_changes { OnErr result (changes.now ≢ []) }
    {
        match self.attributes.write(server, path, changes) {
            Ok(()) => Ok(Answer::bare(self.alloc, Ruling::Changed)),
            Err(WriteFault::Inconsistent) => Ok(Answer::bare(self.alloc, Ruling::Payload)),
            Err(WriteFault::Memory) => Err(AllocError),
        }
    }

    /// Sets attributes by the queries among options, where no rule refuses it.
    pub(crate) fn write_attributes(
        &mut self,
        server: u16,
        path: Path,
        options: &[Opt],
    ) -> Result<Answer, AllocError>
        ensures outcome { IfOk result (λ a. Leaves a self.new
            (attributes_outcome self.old server path (queries_of options.now))) }

        // Only what the queries set takes memory.
        ensures may_lack_memory { OnErr result (takes_memory
            (attributes_outcome self.old server path (queries_of options.now)).answer.ruling ≡ true) }
        ensures begins { OnErr result
            (BeginsWithChange (level_at self.old.catalog path) (queries_of options.now)) }
    {
        if path.object() == SECURITY {
            return Ok(Answer::bare(self.alloc, Ruling::Security));
        }
        if !exists(&self.catalog, &self.store, path) {
            return Ok(Answer::bare(self.alloc, Ruling::Target));
        }
        let rights = self.rights(server, path);
        if !annotates_at(rights, path) {
            return Ok(Answer::bare(self.alloc, Ruling::Right));
        }
        let Some(changes) = changes_given(self.alloc, &self.catalog, path, options)? else {
            return Ok(Answer::bare(self.alloc, Ruling::Payload));
        };
        self.annotate(server, path, changes.as_slice())
    }
}
