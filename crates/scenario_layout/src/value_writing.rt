ghost use Rattle.std.specs.Prelude.{◌≡◌, ◌≤◌, ◌++◌, length, Option, OnOk, OnErr};
ghost use Rattle.std.specs.Io.{StartsWith};
ghost use Rattle.lwm2m_values.specs.declared.kind.ValueKind.{ValueKind};
ghost use Rattle.lwm2m_values.specs.Value.{kind_of, IsGood};
ghost use Rattle.scenario_layout.specs.Value.{kind, text, opaque, of_kind, value};

use byte_layout::{put_bytes, put_i64, put_u8, put_u16};
use lwm2m_values::{Value, ValueKind};
use std::alloc::AllocError;

/// Writes the number of a kind. Where memory runs out, the vector has the bytes that it had.
#[tactic(auto, unfolding(crate::specs::Value::kind))]
pub fn put_kind(out: &mut Vec<u8>, k: ValueKind) -> Result<(), AllocError>
    ensures ok { OnOk result (out.new.items ≡ out.old.items ++ kind.spell k) }
    ensures err { OnErr result (out.new.items ≡ out.old.items) }
{
    let number = match k {
        ValueKind::Text => 0,
        ValueKind::Whole => 1,
        ValueKind::Flag => 2,
        ValueKind::Opaque => 3,
        ValueKind::Moment => 4,
        ValueKind::Link => 5,
    };
    put_u8(out, number)
}

/// Writes a value, whichever kind is wanted. Where memory runs out, some of its bytes may have been written after
/// those that stood there.
#[tactic(auto, using(byte_layout::proofs::Appended::appended), unfolding(crate::specs::Value::value))]
pub fn put_value(out: &mut Vec<u8>, v: &Value) -> Result<(), AllocError>
    requires { IsGood v.now }
    ensures ok { OnOk result ((wanted : Option ValueKind)
        → out.new.items ≡ out.old.items ++ (value wanted).spell v.now) }
    ensures appends { StartsWith out.new.items out.old.items }
{
    put_kind(out, v.kind())?;
    put_held(out, v)
}

/// Writes what the value holds.
#[tactic(auto, using(byte_layout::proofs::Appended::appended))]
fn put_held(out: &mut Vec<u8>, v: &Value) -> Result<(), AllocError>
    requires { IsGood v.now }
    ensures ok { OnOk result (out.new.items ≡ out.old.items ++ (of_kind (kind_of v.now)).spell v.now) }
    ensures appends { StartsWith out.new.items out.old.items }
{
    match v {
        Value::Text(t) => put_text(out, t.as_str().as_bytes()),
        Value::Whole(number) => put_i64(out, *number),
        Value::Flag(flag) => put_u8(out, u8::from(*flag)),
        Value::Opaque(content) => put_opaque(out, content.as_slice()),
        Value::Moment(number) => put_i64(out, *number),
        Value::Link(object, instance) => {
            put_u16(out, *object)?;
            put_u16(out, *instance)
        }
    }
}

#[tactic(auto, using(byte_layout::proofs::Appended::appended), unfolding(crate::specs::Value::text))]
fn put_text(out: &mut Vec<u8>, bytes: &[u8]) -> Result<(), AllocError>
    requires { length bytes.now ≤ 255 }
    ensures ok { OnOk result (out.new.items ≡ out.old.items ++ text.spell bytes.now) }
    ensures appends { StartsWith out.new.items out.old.items }
{
    put_u8(out, bytes.len() as u8)?;
    put_bytes(out, bytes)
}

#[tactic(auto, using(byte_layout::proofs::Appended::appended), unfolding(crate::specs::Value::opaque))]
fn put_opaque(out: &mut Vec<u8>, bytes: &[u8]) -> Result<(), AllocError>
    requires { length bytes.now ≤ 1024 }
    ensures ok { OnOk result (out.new.items ≡ out.old.items ++ opaque.spell bytes.now) }
    ensures appends { StartsWith out.new.items out.old.items }
{
    put_u16(out, bytes.len() as u16)?;
    put_bytes(out, bytes)
}
