ghost use Rattle.std.specs.Prelude.{◌≡◌, ◌/◌};
ghost use Rattle.lwm2m_values.specs.Tlv.{type_bits, is_allowed, level_within};

/// The type of a record, bits 7 and 6 of its first byte.
#[derive(Clone, Copy)]
pub enum RecordType {
    /// 00: an Object Instance.
    Instance,
    /// 01: a Resource Instance.
    Part,
    /// 10: a Multiple Resource.
    Multi,
    /// 11: a Resource.
    Single,
}

/// What is around a record.
#[derive(Clone, Copy)]
pub enum Around {
    /// Nothing: the records of a payload.
    Top,
    /// An Object Instance.
    InInstance,
    /// A Multiple Resource.
    InMulti,
}

/// The type that a record's first byte names.
pub(crate) fn type_of(first: u8) -> RecordType
    ensures { type_bits result ≡ first / 64 }
{
    match first / 64 {
        0 => RecordType::Instance,
        1 => RecordType::Part,
        2 => RecordType::Multi,
        _ => RecordType::Single,
    }
}

/// Whether a record of this type is allowed there.
pub(crate) fn may_stand(level: Around, kind: RecordType) -> bool
    ensures { result ≡ is_allowed level kind }
{
    match (level, kind) {
        (Around::Top, _) => true,
        (Around::InInstance, RecordType::Multi | RecordType::Single) => true,
        (Around::InMulti, RecordType::Part) => true,
        _ => false,
    }
}
