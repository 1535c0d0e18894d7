//! The objects of what a device outputs.

ghost use Rattle.std.specs.Prelude.{◌≡◌, ◌++◌, OnOk};
ghost use Rattle.device_machine.specs.declared.output.Output.TheVariants as outputs;
ghost use Rattle.trace_json.specs.Steps.{output_json, outputs_json};
ghost use Rattle.trace_json.specs.Writing.{Has64Bits, tokens_of};

use crate::datagrams::put_datagram;
use crate::members::put_string;
use device_machine::{Act, Output, act_name};
use json::Writer;
use std::alloc::{AllocError, Global};

/// Writes the object of an act.
#[tactic(auto, unfolding(crate::specs::Steps::output_json))]
pub(crate) fn put_act(out: &mut Writer, act: Act) -> Result<(), AllocError>
    ensures adds { OnOk result (out.new.tokens ≡ out.old.tokens ++ tokens_of (output_json (outputs.Act act))) }
    ensures before { out.new.before ≡ out.old.before }
    ensures exact { Has64Bits (output_json (outputs.Act act)) }
{
    out.begin_object()?;
    put_string(out, "kind", "act")?;
    put_string(out, "act", act_name(act))?;
    out.end_object()?;
    Ok(())
}

/// Writes the object of an output.
#[tactic(auto, unfolding(crate::specs::Steps::output_json))]
fn put_output(alloc: Global, out: &mut Writer, output: &Output) -> Result<(), AllocError>
    ensures adds { OnOk result (out.new.tokens ≡ out.old.tokens ++ tokens_of (output_json output.now)) }
    ensures before { out.new.before ≡ out.old.before }
    ensures exact { OnOk result (Has64Bits (output_json output.now)) }
{
    match output {
        Output::Send { server, bytes } => {
            put_datagram(alloc, out, "send", *server, bytes.as_slice())
        }
        Output::Act(act) => put_act(out, *act),
    }
}

/// Writes the array of outputs, in their order.
pub(crate) fn put_outputs(
    alloc: Global,
    out: &mut Writer,
    outputs: &[Output],
) -> Result<(), AllocError>
    ensures adds { OnOk result (out.new.tokens ≡ out.old.tokens ++ tokens_of (outputs_json outputs.now)) }
    ensures before { out.new.before ≡ out.old.before }
    ensures exact { OnOk result (Has64Bits (outputs_json outputs.now)) }
{
    out.begin_array()?;
    for output in outputs {
        put_output(alloc, out, output)?;
    }
    out.end_array()?;
    Ok(())
}
