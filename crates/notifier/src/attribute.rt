ghost use Rattle.std.specs.Prelude.{◌≡◌};
ghost use Rattle.notifier.specs.Attributes.{key_of, path_of, rank};
ghost use Rattle.std.proofs.Common.{rules};
ghost use Rattle.std.specs.Cmp.{partial_order_from_own_ties};
ghost use Rattle.std.specs.Cmp.Rules.{comparing};
ghost use Rattle.std.specs.Ordering.{as_partial_cmp, nat_cmp, on};

use object_defs::Path;
use std::cmp::Ordering;

/// The name of an attribute (OMA LwM2M 1.1 Core, attributes), in this order.
#[derive(Clone, Copy, PartialEq, Eq)]
pub enum Name {
    /// Minimum period, in seconds.
    Pmin,
    /// Maximum period, in seconds.
    Pmax,
    /// Greater than, in thousandths.
    Gt,
    /// Less than, in thousandths.
    Lt,
    /// Step, in thousandths.
    St,
}

impl Name {
    /// The place of the name among the names.
    fn rank(self) -> u8
        ensures { result ≡ rank self }
    {
        match self {
            Name::Pmin => 0,
            Name::Pmax => 1,
            Name::Gt => 2,
            Name::Lt => 3,
            Name::St => 4,
        }
    }
}

impl Ord for Name {
    ghost cmp = { on rank nat_cmp };

    ghost total = { Prim.search (comparing, rules) };

    ghost matches_partial_cmp = { Prim.search (comparing, rules) };

    ghost matches_eq = { Prim.search (comparing, rules) };

    fn cmp(&self, other: &Name) -> Ordering {
        self.rank().cmp(&other.rank())
    }
}

impl PartialOrd for Name {
    ghost partial_cmp = { as_partial_cmp (on rank nat_cmp) };

    ghost laws = { partial_order_from_own_ties (Prim.search (comparing, rules)) (Prim.search (comparing, rules)) };

    fn partial_cmp(&self, other: &Name) -> Option<Ordering> {
        Some(self.cmp(other))
    }
}

/// A change of one attribute.
#[derive(Clone, Copy)]
pub struct Change {
    /// The attribute's name.
    pub name: Name,
    /// The new number: seconds of pmin and pmax, thousandths of gt, lt and st. None unsets it.
    pub number: Option<i64>,
}

/// What the path is that attributes are written to.
#[derive(Clone, Copy)]
pub enum Level {
    /// An object.
    Object,
    /// An object instance.
    Instance,
    /// A resource that is no `Number`.
    Resource,
    /// A single resource of a number: Integer or Time.
    Number,
}

/// What an attribute is set for: its server, the numbers of its path, and its name. In this order,
/// a path before those below it.
#[derive(Clone, Copy, PartialEq, Eq, PartialOrd, Ord)]
pub struct AttributeKey {
    /// The Short Server ID of the server.
    pub server: u16,
    /// The object's number.
    pub object: u16,
    /// The instance's number, where the path has one.
    pub instance: Option<u16>,
    /// The resource's number, where the path has one.
    pub resource: Option<u16>,
    /// The resource instance's number, where the path has one.
    pub part: Option<u16>,
    /// The attribute's name.
    pub name: Name,
}

impl AttributeKey {
    /// The key of an attribute of a server on a path.
    pub fn new(server: u16, path: Path, name: Name) -> AttributeKey
        ensures key { result ≡ key_of server path name }
        ensures path { path_of result ≡ path }
    {
        let (object, instance, resource, part) = match path {
            Path::Object(object) => (object, None, None, None),
            Path::Instance(object, instance) => (object, Some(instance), None, None),
            Path::Resource(object, instance, resource) => {
                (object, Some(instance), Some(resource), None)
            }
            Path::Part(object, instance, resource, part) => {
                (object, Some(instance), Some(resource), Some(part))
            }
        };
        AttributeKey {
            server,
            object,
            instance,
            resource,
            part,
            name,
        }
    }

    /// The path.
    pub fn path(self) -> Path
        ensures { result ≡ path_of self }
    {
        match (self.instance, self.resource, self.part) {
            (None, _, _) => Path::Object(self.object),
            (Some(instance), None, _) => Path::Instance(self.object, instance),
            (Some(instance), Some(resource), None) => {
                Path::Resource(self.object, instance, resource)
            }
            (Some(instance), Some(resource), Some(part)) => {
                Path::Part(self.object, instance, resource, part)
            }
        }
    }
}
