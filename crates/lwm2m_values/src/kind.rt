/// The kind of a resource's values, a data type of OMA LwM2M 1.1 Core.
#[derive(Clone, Copy)]
pub enum ValueKind {
    /// UTF-8 text of at most 255 bytes.
    Text,
    /// An Integer of 64 bits.
    Whole,
    /// A Boolean.
    Flag,
    /// At most 1,024 bytes.
    Opaque,
    /// A Time: seconds since 1970-01-01 UTC, of 64 bits.
    Moment,
    /// An Objlnk: an object's number and an instance's.
    Link,
}
