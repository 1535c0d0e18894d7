ghost use Rattle.std.specs.Prelude.{◌≡◌, ◌≢◌, ◌∷◌, [], List, map, OnOk, OnErr, IfErr, IfOk, IsErrOf, IsOk, Ok, Err, Some};
ghost use Rattle.std.specs.Option.{option_copied};
ghost use Rattle.std.specs.List.{list_any};
ghost use Rattle.notifier.specs.Query.{name_of, name_part, number_part, attribute_number, target_of, stands_at, is_of};
ghost use Rattle.notifier.specs.NumberEnd.{IsQueryFault, query_fault_at};
ghost use Rattle.notifier.specs.declared.attribute.Change.{Change as Made};
ghost use Rattle.notifier.specs.declared.attribute.Level.{Level as Stands};
ghost use Rattle.notifier.specs.Query.{change_to, change_of, reading_of, changes_of, is_number_level, BeginsWithChange};

use crate::attribute::{Change, Level, Name};
use crate::fault::QueryFault;
use crate::number_end::number_end;
use crate::numerals::{attribute_number, place_of};
use std::alloc::Global;
use std::marker::Model;

/// The name that a text spells.
fn name_of(text: &[u8]) -> Option<Name>
    ensures { result ≡ name_of text.now }
{
    match text {
        b"pmin" => Some(Name::Pmin),
        b"pmax" => Some(Name::Pmax),
        b"gt" => Some(Name::Gt),
        b"lt" => Some(Name::Lt),
        b"st" => Some(Name::St),
        _ => None,
    }
}

/// The text before the first `=`, or all of it.
fn name_part(query: &[u8]) -> &[u8]
    ensures { result.now ≡ name_part query.now }
{
    match place_of(query, b'=') {
        Some(place) => &query[..place],
        None => query,
    }
}

/// The text after the first `=`.
fn number_part(query: &[u8]) -> Option<&[u8]>
    ensures { option_copied result ≡ number_part query.now }
{
    match place_of(query, b'=') {
        Some(place) => Some(&query[place + 1..]),
        None => None,
    }
}

/// Whether a level is that of a number.
fn is_number_level(level: Level) -> bool
    ensures { result ≡ is_number_level level }
{
    match level {
        Level::Object | Level::Instance | Level::Resource => false,
        Level::Number => true,
    }
}

/// Whether an attribute stands at a level.
fn stands_at(name: Name, level: Level) -> bool
    ensures { result ≡ stands_at name level }
{
    match name {
        Name::Pmin | Name::Pmax => true,
        Name::Gt | Name::Lt | Name::St => is_number_level(level),
    }
}

/// The change to a number, or to none.
fn change_to(level: Level, name: Name, number: Option<i64>) -> Result<Change, QueryFault>
    ensures { result ≡ change_to level name (Some number) }
{
    if stands_at(name, level) {
        Ok(Change { name, number })
    } else {
        Err(QueryFault::Level)
    }
}

/// Whether one of the changes is of this name.
fn has_change(changes: &[Change], name: Name) -> bool
    ensures { result ≡ list_any (is_of name) changes.now }
{
    changes.iter().any(|change| change.name == name)
}

/// The change of this name, by the text after its `=`.
fn change_of(
    before: &[Change],
    level: Level,
    name: Name,
    text: Option<&[u8]>,
) -> Result<Change, QueryFault>
    ensures { result ≡ change_of before.now level (Some name) (option_copied text.entry) }
{
    if has_change(before, name) {
        return Err(QueryFault::Repeated);
    }
    match text {
        None => change_to(level, name, None),
        Some(text) => match attribute_number(name, text) {
            Some(number) => change_to(level, name, Some(number)),
            None => Err(QueryFault::BadNumber),
        },
    }
}

/// The change that a query spells after these, or its fault.
fn reading_of(before: &[Change], level: Level, query: &[u8]) -> Result<Change, QueryFault>
    ensures { result ≡ reading_of before.now level query.now }
{
    match name_of(name_part(query)) {
        Some(name) => change_of(before, level, name, number_part(query)),
        None => Err(QueryFault::UnknownName),
    }
}

/// The place in a query with which its number ends.
fn fault_place(query: &[u8]) -> usize
    ensures { result ≡ query_fault_at query.now }
{
    let before = name_part(query);
    match (name_of(before), number_part(query)) {
        (Some(name), Some(number)) => before.len() + 1 + number_end(name, number),
        _ => query.len(),
    }
}

/// The byte of a query, of which `name=` counts, with which no number of its attribute goes on; or the length of the
/// query, where the number ends too early. That is proved of a query whose fault is `BadNumber`.
pub fn query_fault_at(query: &[u8]) -> usize
    ensures place { result ≡ query_fault_at query.now }
    ensures fault { (before : List Made) (level : Stands)
        → reading_of before level query.now ≡ Err QueryFault.BadNumber → IsQueryFault query.now result }
{
    fault_place(query)
}

/// Changes of attributes. Contracts see the list of them, in their order.
#[derive(Drop)]
pub struct Changes {
    items: Vec<Change>,
}

impl Model for Changes {
    ghost use Rattle.std.specs.Prelude.{List};
    ghost use Rattle.notifier.specs.declared.attribute.Change.{Change};

    ghost Value = { List Change };

    ghost view = { λ c. c.items.items };
}

impl Changes {
    /// No change.
    pub fn new(alloc: Global) -> Changes
        ensures { result ≡ [] }
    {
        Changes {
            items: Vec::new(alloc),
        }
    }

    /// The changes that queries spell, as `parse_query`, of queries that stand elsewhere.
    pub fn parse(alloc: Global, queries: &[&[u8]], level: Level) -> Result<Changes, QueryFault>
        ensures ok { IfOk result (λ c. changes_of [] level (map (λ q. q.now) queries.now) ≡ Ok c) }
        ensures fault { IfErr result (λ e. e ≢ QueryFault.Memory
            → changes_of [] level (map (λ q. q.now) queries.now) ≡ Err e) }
        ensures may_lack_memory { IsErrOf result QueryFault.Memory
            → BeginsWithChange level (map (λ q. q.now) queries.now) }
    {
        let mut changes = Changes::new(alloc);
        for query in queries {
            changes.add_query(query, level)?;
        }
        Ok(changes)
    }

    /// The changes.
    pub fn as_slice(&self) -> &[Change]
        ensures { result.now ≡ self.now }
    {
        self.items.as_slice()
    }

    /// The changes as a vector. It takes no memory.
    pub fn into_vec(self) -> Vec<Change>
        ensures { result.items ≡ self }
    {
        let items = self.items;
        items
    }

    /// Adds the change that one query spells, `name=number` or `name`, after these.
    #[tactic(auto, using(crate::proofs::QueryLaws::reading_is_plain))]
    pub fn add_query(&mut self, query: &[u8], level: Level) -> Result<(), QueryFault>
        ensures ok { OnOk result (changes_of self.old level (query.now ∷ []) ≡ Ok self.new) }
        ensures fault { IfErr result (λ e. e ≢ QueryFault.Memory → changes_of self.old level (query.now ∷ []) ≡ Err e) }

        // Only a query that spells a change takes memory.
        ensures may_lack_memory { IsErrOf result QueryFault.Memory → IsOk (reading_of self.old level query.now) }
        ensures unchanged { OnErr result (self.new ≡ self.old) }
    {
        let change = reading_of(self.items.as_slice(), level, query)?;
        self.items.push(change)?;
        Ok(())
    }
}

/// The changes that queries spell for a path of this level, each `name=number`, or `name` alone, which unsets it; or
/// else the first fault from the left. Neither no query nor a first one with a fault takes memory.
///
/// pmin and pmax are 1 or more digits, at most 2,147,483,647, and stand at every level. gt, lt and st are `-` or
/// nothing, 1 to 15 digits, and a point with 1 to 3 digits or nothing; st is above 0; they stand at a single resource
/// of a number alone.
pub fn parse_query(
    alloc: Global,
    queries: &[Vec<u8>],
    level: Level,
) -> Result<Vec<Change>, QueryFault>
    ensures ok { IfOk result (λ v. changes_of [] level (map (λ q. q.items) queries.now) ≡ Ok v.items) }
    ensures fault { IfErr result (λ e. e ≢ QueryFault.Memory
        → changes_of [] level (map (λ q. q.items) queries.now) ≡ Err e) }

    // Only changes take memory: neither no query nor a first one with a fault does.
    ensures may_lack_memory { IsErrOf result QueryFault.Memory
        → BeginsWithChange level (map (λ q. q.items) queries.now) }
{
    let mut read = Changes::new(alloc);
    for query in queries {
        read.add_query(query.as_slice(), level)?;
    }
    Ok(read.into_vec())
}
