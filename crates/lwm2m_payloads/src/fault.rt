//! Why a payload gives nothing.

use lwm2m_values::ValueKind;
use object_defs::Ops;

/// Why the payload of a Write or a Create gives nothing (OMA LwM2M 1.1 Core, data formats). Records are counted from 1.
#[derive(Clone, Copy)]
pub enum PayloadFault {
    /// It is not a value of this kind, in plain text or application/octet-stream.
    NotValue {
        /// The kind.
        kind: ValueKind,
        /// How many bytes the payload has.
        length: usize,
    },
    /// It is not TLV.
    NotTlv,
    /// It is not one record, as it has to be.
    Records {
        /// How many it is.
        count: usize,
    },
    /// A record is refused.
    Record {
        /// The place of the first such record, among those of the payload or of the Object Instance that it is.
        place: usize,
        /// Its number.
        number: u16,
        /// Why it is refused.
        fault: RecordFault,
    },
    /// A mandatory resource of a new instance is not given.
    Mandatory {
        /// The number of the first such resource.
        resource: u16,
    },
}

/// Why a record is refused.
#[derive(Clone, Copy)]
pub enum RecordFault {
    /// Its number is not that of the path.
    Number,
    /// The object does not define the resource.
    Undefined,
    /// The resource has these operations, by which it is not given here.
    Operations {
        /// The operations.
        ops: Ops,
    },
    /// It is not of the type that the resource or the part needs.
    Form,
    /// Its value is not one of this kind.
    Value {
        /// The kind.
        kind: ValueKind,
        /// How many bytes the value has.
        length: usize,
    },
    /// The value of a part is not one of its kind.
    Part {
        /// The part's number.
        part: u16,
        /// The kind.
        kind: ValueKind,
        /// How many bytes the part's value has.
        length: usize,
    },
    /// A later part has the number of this one.
    PartTwice {
        /// The part's number.
        part: u16,
    },
    /// It has no part, and its resource is mandatory.
    Empty,
    /// A later record has its number.
    Twice,
}
