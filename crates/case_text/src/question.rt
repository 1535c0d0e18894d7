use lwm2m_values::Value;
use object_defs::Path;

/// What a line asks a device, and the answer that it states.
#[derive(Drop)]
pub enum Question {
    /// `value PATH => KIND VALUE`, `value PATH => none`: the value that the device has.
    Value {
        /// The path to it, of any count of numbers.
        path: Path,
        /// The value, or that there is none.
        value: Option<Value>,
    },
    /// `clock => N`: the second that its clock shows.
    Clock(u64),
    /// `observations => N`: how many observations it has.
    Observations(u64),
    /// `due => N`, `due => none`: the first second in which it sends or removes something by itself.
    Due(Option<u64>),
}
