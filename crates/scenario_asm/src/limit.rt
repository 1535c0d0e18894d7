//! The limits that a line of a text may pass.

ghost use Rattle.std.specs.Prelude.{◌≡◌, ◌≢◌, None};
ghost use Rattle.std.specs.Option.{option_copied};
ghost use Rattle.scenario_words.specs.declared.cause.Cause.TheVariants.{Limit};
ghost use Rattle.scenario_asm.specs.Limits.{counted_by, length_limit, most_of, value_limit};

use device_template::Template;
use lwm2m_values::Value;
use scenario_words::Cause;
use std::fmt;

/// How many values a class may have.
const MOST_VALUES: usize = 65_535;

/// A limit of a scenario: how many there may be at most of something, or how long something may be. It prints as
/// `at most 16384 devices`.
#[derive(Clone, Copy)]
pub enum ScenarioLimit {
    /// Classes of a scenario.
    Classes,
    /// Devices of a scenario.
    Devices,
    /// Steps of a device.
    Steps,
    /// Accounts of a class.
    Accounts,
    /// Objects of a class's own.
    Objects,
    /// Resources of an object.
    Resources,
    /// Instances of an object.
    Instances,
    /// Values of a class.
    Values,
    /// Parts of a resource.
    Parts,
    /// Bytes of a text.
    Text,
    /// Bytes of an opaque value.
    Opaque,
    /// Bytes of a datagram.
    Datagram,
}

impl fmt::Display for ScenarioLimit {
    ghost use Rattle.std.specs.Prelude.{Some};
    ghost use Rattle.scenario_asm.specs.Limits.{limit_words};

    ghost output = { λ limit. Some (limit_words limit) };

    fn fmt<W: fmt::Write>(&self, f: &mut fmt::Formatter<W>) -> fmt::Result {
        let most = most_of(*self);
        let counted = counted_by(*self);
        write!(f, "at most {most} {counted}")
    }
}

fn most_of(limit: ScenarioLimit) -> u16
    ensures { result ≡ most_of limit }
{
    match limit {
        ScenarioLimit::Classes => 256,
        ScenarioLimit::Devices => 16_384,
        ScenarioLimit::Steps => 4096,
        ScenarioLimit::Accounts => 4,
        ScenarioLimit::Objects => 11,
        ScenarioLimit::Resources | ScenarioLimit::Instances => 64,
        ScenarioLimit::Values => 65_535,
        ScenarioLimit::Parts => 32,
        ScenarioLimit::Text => 255,
        ScenarioLimit::Opaque => 1024,
        ScenarioLimit::Datagram => 1500,
    }
}

fn counted_by(limit: ScenarioLimit) -> &'static str
    ensures { result.now ≡ counted_by limit }
{
    match limit {
        ScenarioLimit::Classes => "classes",
        ScenarioLimit::Devices => "devices",
        ScenarioLimit::Steps => "steps of a device",
        ScenarioLimit::Accounts => "accounts of a class",
        ScenarioLimit::Objects => "objects of a class",
        ScenarioLimit::Resources => "resources of an object",
        ScenarioLimit::Instances => "instances of an object",
        ScenarioLimit::Values => "values of a class",
        ScenarioLimit::Parts => "parts of a resource",
        ScenarioLimit::Text => "bytes of a text",
        ScenarioLimit::Opaque => "bytes of an opaque value",
        ScenarioLimit::Datagram => "bytes of a datagram",
    }
}

/// How long a value may be, by its kind.
pub(crate) fn length_limit(value: &Value) -> Option<ScenarioLimit>
    ensures { result ≡ length_limit value.now }
{
    match value {
        Value::Text(_) => Some(ScenarioLimit::Text),
        Value::Opaque(_) => Some(ScenarioLimit::Opaque),
        Value::Whole(_) | Value::Flag(_) | Value::Moment(_) | Value::Link(_, _) => None,
    }
}

/// The limit that a value passes which the open class has no room for.
pub(crate) fn value_limit(value: &Value, class: Option<&Template>) -> Option<ScenarioLimit>
    ensures { result ≡ value_limit value.now (option_copied class.entry) }
{
    let class = class?;
    if !value.is_good() {
        return length_limit(value);
    }
    if class.store().len() >= MOST_VALUES {
        return Some(ScenarioLimit::Values);
    }
    Some(ScenarioLimit::Parts)
}

/// Why a line is refused, and the limit that it passes, if it passes one.
#[derive(Clone, Copy)]
pub(crate) struct LineFault {
    pub(crate) cause: Cause,
    pub(crate) limit: Option<ScenarioLimit>,
}

/// A line that is refused for this cause; where that is a limit, it is this one.
pub(crate) fn line_fault(cause: Cause, limit: Option<ScenarioLimit>) -> LineFault
    ensures cause { result.cause ≡ cause }
    ensures limit { cause ≡ Limit → result.limit ≡ limit }
    ensures no_limit { cause ≢ Limit → result.limit ≡ None }
{
    let limit = match cause {
        Cause::Limit => limit,
        Cause::Missing
        | Cause::Token
        | Cause::UnknownWord
        | Cause::Range
        | Cause::Duplicate
        | Cause::Memory => None,
    };
    LineFault { cause, limit }
}
