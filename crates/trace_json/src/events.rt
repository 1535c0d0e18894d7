//! The objects of steps.

ghost use Rattle.std.specs.Prelude.{◌≡◌, ◌++◌, ◌∷◌, [], OnOk, Some};
ghost use Rattle.std.specs.Option.{option_copied};
ghost use Rattle.device_machine.specs.declared.event.Event.TheVariants as events;
ghost use Rattle.scenario_image.specs.declared.step.Step.TheVariants as steps;
ghost use Rattle.trace_json.specs.Json.{number_json};
ghost use Rattle.trace_json.specs.Steps.{event_json, kind_json};
ghost use Rattle.trace_json.specs.Writing.{Has64Bits, tokens_of};

use crate::datagrams::put_datagram;
use crate::members::{put_number, put_string};
use crate::values::put_value;
use device_machine::Event;
use json::Writer;
use lwm2m_values::Value;
use object_defs::{Path, path_text};
use scenario_image::Step;
use std::alloc::{AllocError, Global};

/// Writes the object of a step that has one number.
fn put_one(out: &mut Writer, kind: &str, key: &str, number: u64) -> Result<(), AllocError>
    ensures adds { OnOk result
        (out.new.tokens ≡ out.old.tokens ++ tokens_of (kind_json kind.now ((key.now, number_json number) ∷ []))) }
    ensures before { out.new.before ≡ out.old.before }
    ensures exact { Has64Bits (kind_json kind.now ((key.now, number_json number) ∷ [])) }
{
    out.begin_object()?;
    put_string(out, "kind", kind)?;
    put_number(out, key, number)?;
    out.end_object()?;
    Ok(())
}

/// Writes the object of a value that changes.
#[tactic(auto, unfolding(crate::specs::Steps::event_json))]
fn put_change(alloc: Global, out: &mut Writer, path: Path, value: &Value) -> Result<(), AllocError>
    ensures adds { OnOk result
        (out.new.tokens ≡ out.old.tokens ++ tokens_of (event_json (Some (steps.Event (events.Put path value.now))))) }
    ensures before { out.new.before ≡ out.old.before }
    ensures exact { OnOk result (Has64Bits (event_json (Some (steps.Event (events.Put path value.now))))) }
{
    let text = path_text(alloc, path)?;
    out.begin_object()?;
    put_string(out, "kind", "put")?;
    put_string(out, "path", text.as_str())?;
    out.key("value")?;
    put_value(alloc, out, value)?;
    out.end_object()?;
    Ok(())
}

/// Writes the object of a device that waits for posts.
#[tactic(auto, unfolding(crate::specs::Steps::event_json))]
fn put_need(out: &mut Writer, group: u8, count: u32) -> Result<(), AllocError>
    ensures adds { OnOk result (out.new.tokens ≡ out.old.tokens
        ++ tokens_of (event_json (Some (steps.Need group count)))) }
    ensures before { out.new.before ≡ out.old.before }
    ensures exact { Has64Bits (event_json (Some (steps.Need group count))) }
{
    out.begin_object()?;
    put_string(out, "kind", "need")?;
    put_number(out, "group", group as u64)?;
    put_number(out, "count", count as u64)?;
    out.end_object()?;
    Ok(())
}

/// Writes the object of an event.
#[tactic(auto, unfolding(crate::specs::Steps::event_json))]
fn put_happening(alloc: Global, out: &mut Writer, event: &Event) -> Result<(), AllocError>
    ensures adds { OnOk result
        (out.new.tokens ≡ out.old.tokens ++ tokens_of (event_json (Some (steps.Event event.now)))) }
    ensures before { out.new.before ≡ out.old.before }
    ensures exact { OnOk result (Has64Bits (event_json (Some (steps.Event event.now)))) }
{
    match event {
        Event::Recv { server, bytes } => {
            put_datagram(alloc, out, "recv", *server, bytes.as_slice())
        }
        Event::Put { path, value } => put_change(alloc, out, *path, value),
        Event::Firmware(code) => put_one(out, "firmware", "code", *code as u64),
        Event::Tick(seconds) => put_one(out, "tick", "seconds", *seconds as u64),
    }
}

/// Writes the object of a step, or null where there is no such step.
#[tactic(auto, unfolding(crate::specs::Steps::event_json))]
pub(crate) fn put_event(
    alloc: Global,
    out: &mut Writer,
    step: Option<&Step>,
) -> Result<(), AllocError>
    ensures adds { OnOk result
        (out.new.tokens ≡ out.old.tokens ++ tokens_of (event_json (option_copied step.entry))) }
    ensures before { out.new.before ≡ out.old.before }
    ensures exact { OnOk result (Has64Bits (event_json (option_copied step.entry))) }
{
    match step {
        None => out.null(),
        Some(Step::Event(event)) => put_happening(alloc, out, event),
        Some(Step::Post(group)) => put_one(out, "post", "group", *group as u64),
        Some(Step::Need(group, count)) => put_need(out, *group, *count),
    }
}
