ghost use Rattle.std.specs.Prelude.{◌≡◌, ◌==◌, false, [], ◌∷◌, ◌++◌, OnOk};
ghost use Rattle.std.specs.List.{list_any};
ghost use Rattle.lwm2m_payloads.specs.Once.{ResourcesOnce};

use lwm2m_values::Value;
use std::alloc::{AllocError, Global};
use std::marker::Model;

/// What a payload is for.
#[derive(Clone, Copy, PartialEq, Eq)]
pub enum Purpose {
    /// It gives values to writable resources.
    Write,
    /// It gives values to all resources of a new instance but the executable ones.
    Create,
}

/// How a Write treats what it does not name (OMA LwM2M 1.1 Core, Write).
#[derive(Clone, Copy, PartialEq, Eq)]
pub enum Mode {
    /// Replace: what can be removed is removed.
    Replace,
    /// Partial Update: it is kept.
    Update,
}

/// Values of resource instances with their numbers, which contracts see as a list of pairs.
#[derive(Drop)]
pub struct Parts {
    items: Vec<(u16, Value)>,
}

impl Model for Parts {
    ghost use Rattle.std.specs.Coded.{codes};
    ghost use Rattle.lwm2m_values.specs.Value.{value_code};
    ghost use Rattle.lwm2m_payloads.specs.PartList.{PartList};

    ghost Value = { PartList };

    ghost coded = { Prim.hlevel (codes, value_code) };

    ghost view = { λ p. p.items.items };
}

impl Parts {
    /// No parts.
    pub(crate) fn new(alloc: Global) -> Parts
        ensures { result ≡ [] }
    {
        Parts {
            items: Vec::new(alloc),
        }
    }

    /// Adds a part after the others.
    pub(crate) fn push(&mut self, part: (u16, Value)) -> Result<(), AllocError>
        ensures { OnOk result (self.new ≡ self.old ++ part ∷ []) }
    {
        self.items.push(part)?;
        Ok(())
    }

    /// The vector that holds the parts.
    pub(crate) fn into_vec(self) -> Vec<(u16, Value)>
        ensures { result.items ≡ self }
    {
        self.items
    }

    /// The parts, in the order in which they were given.
    pub fn as_slice(&self) -> &[(u16, Value)]
        ensures { result.now ≡ self.now }
    {
        self.items.as_slice()
    }

    /// Whether there is a part of this number.
    pub(crate) fn has(&self, number: u16) -> bool
        ensures { result ≡ list_any (λ e. e.0 == number) self.now }
    {
        self.items.as_slice().iter().any(|part| part.0 == number)
    }
}

/// What a payload gives to a resource.
#[derive(Drop)]
pub enum Given {
    /// Its single value.
    Single(Value),
    /// The values of resource instances.
    Parts(Parts),
}

/// A resource of an instance, and what it is given.
#[derive(Drop)]
pub struct Assignment {
    /// The resource's number.
    pub resource: u16,
    /// What it is given.
    pub given: Given,
}

/// Assignments in their order, each to a resource of its own, which contracts see as a list.
#[derive(Drop)]
pub struct Assignments {
    items: Vec<Assignment>,
}

impl Model for Assignments {
    ghost use Rattle.std.specs.Prelude.{List};
    ghost use Rattle.lwm2m_payloads.specs.declared.given.Assignment.{Assignment};
    ghost use Rattle.lwm2m_payloads.specs.Once.{ResourcesOnce};

    ghost Value = { List Assignment };

    ghost view = { λ a. a.items.items };

    ghost invariant = { λ a. ResourcesOnce a.items.items };
}

impl Assignments {
    /// No assignments.
    pub(crate) fn new(alloc: Global) -> Assignments
        ensures { result ≡ [] }
    {
        Assignments {
            items: Vec::new(alloc),
        }
    }

    /// Adds an assignment after the others, which are to other resources.
    pub(crate) fn push(&mut self, assignment: Assignment) -> Result<(), AllocError>
        requires { list_any (λ a. a.resource == assignment.resource) self.old ≡ false }
        ensures { OnOk result (self.new ≡ self.old ++ assignment ∷ []) }
    {
        self.items.push(assignment)?;
        Ok(())
    }

    /// The vector that holds the assignments.
    pub(crate) fn into_vec(self) -> Vec<Assignment>
        ensures items { result.items ≡ self }
        ensures once { ResourcesOnce self }
    {
        self.items
    }

    /// The assignments, in the order in which they were given.
    pub fn as_slice(&self) -> &[Assignment]
        ensures { result.now ≡ self.now }
    {
        self.items.as_slice()
    }

    /// Whether there is an assignment to the resource of this number.
    pub(crate) fn has(&self, resource: u16) -> bool
        ensures { result ≡ list_any (λ a. a.resource == resource) self.now }
    {
        self.items.as_slice().iter().any(|a| a.resource == resource)
    }
}

/// What a Create gives: the new instance's number, where an Object Instance alone names it, and the assignments.
#[derive(Drop)]
pub struct Creation {
    /// The number of the new instance, where it is named.
    pub number: Option<u16>,
    /// What the new instance's resources are given.
    pub assigned: Assignments,
}
