//! Steps, written at the end of a vector. Where memory runs out, some of their bytes may have been written after those
//! that stood there.

ghost use Rattle.std.specs.Prelude.{◌≡◌, ◌++◌, length, None, OnOk, unwrap_or};
ghost use Rattle.std.specs.Io.{StartsWith};
ghost use Rattle.object_defs.specs.Path.{full_path};
ghost use Rattle.scenario_layout.specs.Value.{value};
ghost use Rattle.scenario_image.specs.Layout.{kind, step_kind, datagram, of_kind, step, steps};

use crate::kind::put_kind;
use crate::reading::Steps;
use crate::step::Step;
use byte_layout::{PutItems, put_bytes, put_items, put_u8, put_u16, put_u32};
use device_machine::Event;
use lwm2m_values::Value;
use object_defs::{FullPath, Path};
use octets::Bytes;
use scenario_layout::{put_path, put_value};
use std::alloc::AllocError;

/// Writes a datagram of at most 1,500 bytes.
#[tactic(auto, using(byte_layout::proofs::Appended::appended), unfolding(crate::specs::Layout::datagram))]
fn put_datagram(out: &mut Vec<u8>, bytes: &Bytes) -> Result<(), AllocError>
    requires { datagram.Good bytes.now }
    ensures ok { OnOk result (out.new.items ≡ out.old.items ++ datagram.spell bytes.now) }
    ensures appends { StartsWith out.new.items out.old.items }
{
    put_u16(out, bytes.len() as u16)?;
    put_bytes(out, bytes.as_slice())
}

/// The path of three or four numbers; of one or two, that of zeros.
fn full_of(path: Path) -> FullPath
    ensures { result ≡ unwrap_or (full_path path) (record { object = 0; instance = 0; resource = 0; part = None }) }
{
    path.full().unwrap_or(FullPath {
        object: 0,
        instance: 0,
        resource: 0,
        part: None,
    })
}

/// Writes a value, of any kind.
fn put_any(out: &mut Vec<u8>, held: &Value) -> Result<(), AllocError>
    requires { (value None).Good held.now }
    ensures ok { OnOk result (out.new.items ≡ out.old.items ++ (value None).spell held.now) }
    ensures appends { StartsWith out.new.items out.old.items }
{
    // For the proof alone: a value that has a spelling is short, and one that is short is known to be good.
    let _known = held.is_good();
    put_value(out, held)
}

impl<'a> Steps<'a> {
    /// Writes what the step holds.
    #[tactic(auto, using(byte_layout::proofs::Appended::appended), unfolding(crate::specs::Layout::recv, crate::specs::Layout::tick, crate::specs::Layout::put, crate::specs::Layout::firmware, crate::specs::Layout::post, crate::specs::Layout::need))]
    fn put_held(&self, out: &mut Vec<u8>, held: &Step) -> Result<(), AllocError>
        requires { (of_kind self.now.accounts.now (step_kind held.now)).Good held.now }
        ensures ok { OnOk result (out.new.items ≡ out.old.items
            ++ (of_kind self.now.accounts.now (step_kind held.now)).spell held.now) }
        ensures appends { StartsWith out.new.items out.old.items }
    {
        match held {
            Step::Event(Event::Recv { server, bytes }) => {
                put_u16(out, *server)?;
                put_datagram(out, bytes)
            }
            Step::Event(Event::Tick(seconds)) => put_u32(out, *seconds),
            Step::Event(Event::Put { path, value }) => {
                put_path(out, full_of(*path))?;
                put_any(out, value)
            }
            Step::Event(Event::Firmware(code)) => put_u8(out, *code),
            Step::Post(group) => put_u8(out, *group),
            Step::Need(group, count) => {
                put_u8(out, *group)?;
                put_u32(out, *count)
            }
        }
    }
}

impl<'a> PutItems for Steps<'a> {
    #[tactic(auto, using(byte_layout::proofs::Appended::appended), unfolding(crate::specs::Layout::step))]
    fn put_item(&self, out: &mut Vec<u8>, _before: &[Step], item: &Step) -> Result<(), AllocError> {
        put_kind(out, item.kind())?;
        self.put_held(out, item)
    }
}

/// Writes the steps of a row of a class with these accounts.
#[tactic(auto, using(byte_layout::proofs::Appended::appended), unfolding(crate::specs::Layout::steps))]
pub(crate) fn put_steps(
    out: &mut Vec<u8>,
    accounts: &[u16],
    list: &[Step],
) -> Result<(), AllocError>
    requires { (steps accounts.now).Good list.now }
    ensures ok { OnOk result (out.new.items ≡ out.old.items ++ (steps accounts.now).spell list.now) }
    ensures appends { StartsWith out.new.items out.old.items }
{
    put_u16(out, list.len() as u16)?;
    put_items(&Steps { accounts }, out, list)
}
