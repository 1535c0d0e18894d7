ghost use Rattle.std.specs.Prelude.{◌≡◌, IfOk};
ghost use Rattle.std.specs.String.{string_bytes};
ghost use Rattle.object_defs.specs.Path.{full_path, object_in, part_of, path_text, path_to, single_of};

use std::alloc::{AllocError, Global};

/// A path to an object, an object instance, a resource or a resource instance (a part), by their
/// numbers (OMA LwM2M 1.1 Core).
#[derive(Clone, Copy)]
pub enum Path {
    /// Object.
    Object(u16),
    /// Object and instance.
    Instance(u16, u16),
    /// Object, instance and resource.
    Resource(u16, u16, u16),
    /// Object, instance, resource and resource instance.
    Part(u16, u16, u16, u16),
}

/// The path to one value: a resource's single value, or one of its parts. In order of the
/// numbers, the single value before the parts.
#[derive(Clone, Copy, PartialEq, Eq, PartialOrd, Ord)]
pub struct FullPath {
    /// The object's number.
    pub object: u16,
    /// The object instance's number.
    pub instance: u16,
    /// The resource's number.
    pub resource: u16,
    /// The resource instance's number, or none for the single value.
    pub part: Option<u16>,
}

impl FullPath {
    /// The path of three or four numbers that it is.
    pub fn to_path(self) -> Path
        ensures same { result ≡ path_to self }
        ensures again { full_path result ≡ Some self }
    {
        match self.part {
            None => Path::Resource(self.object, self.instance, self.resource),
            Some(part) => Path::Part(self.object, self.instance, self.resource, part),
        }
    }
}

/// The path to a resource.
#[derive(Clone, Copy)]
pub struct ResourcePath {
    /// The object's number.
    pub object: u16,
    /// The object instance's number.
    pub instance: u16,
    /// The resource's number.
    pub resource: u16,
}

impl ResourcePath {
    /// The path to the single value of the resource.
    pub fn single(self) -> FullPath
        ensures { result ≡ single_of self }
    {
        FullPath {
            object: self.object,
            instance: self.instance,
            resource: self.resource,
            part: None,
        }
    }

    /// The path to the part of this number.
    pub fn part(self, part: u16) -> FullPath
        ensures { result ≡ part_of self part }
    {
        FullPath {
            part: Some(part),
            ..self.single()
        }
    }
}

/// The path to an object instance, in order of the numbers.
#[derive(Clone, Copy, PartialEq, Eq, PartialOrd, Ord)]
pub struct InstancePath {
    /// The object's number.
    pub object: u16,
    /// The instance's number.
    pub instance: u16,
}

impl InstancePath {
    /// The path to a resource of the instance.
    pub fn resource_path(self, resource: u16) -> ResourcePath
        ensures { result ≡ record { object = self.object; instance = self.instance; resource = resource } }
    {
        ResourcePath {
            object: self.object,
            instance: self.instance,
            resource,
        }
    }
}

impl Path {
    /// The number of the object that the path begins with.
    pub fn object(self) -> u16
        ensures { result ≡ object_in self }
    {
        match self {
            Path::Object(object)
            | Path::Instance(object, _)
            | Path::Resource(object, _, _)
            | Path::Part(object, _, _, _) => object,
        }
    }

    /// The path to one value that a path of three or four numbers is.
    pub fn full(self) -> Option<FullPath>
        ensures { result ≡ full_path self }
    {
        match self {
            Path::Object(_) | Path::Instance(_, _) => None,
            Path::Resource(object, instance, resource) => Some(FullPath {
                object,
                instance,
                resource,
                part: None,
            }),
            Path::Part(object, instance, resource, part) => Some(FullPath {
                object,
                instance,
                resource,
                part: Some(part),
            }),
        }
    }
}

/// A path as it is written, such as `/3/0/9`.
pub fn path_text(alloc: Global, path: Path) -> Result<String, AllocError>
    ensures { IfOk result (λ s. string_bytes s ≡ path_text path) }
{
    match path {
        Path::Object(object) => format!(in alloc; "/{object}"),
        Path::Instance(object, instance) => format!(in alloc; "/{object}/{instance}"),
        Path::Resource(object, instance, resource) => {
            format!(in alloc; "/{object}/{instance}/{resource}")
        }
        Path::Part(object, instance, resource, part) => {
            format!(in alloc; "/{object}/{instance}/{resource}/{part}")
        }
    }
}
