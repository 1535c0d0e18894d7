//! The lines of devices and their steps. Where memory runs out, some of them may have been written.

ghost use Rattle.std.specs.Prelude.{◌≡◌, ◌++◌, map, OnOk};
ghost use Rattle.std.specs.List.{flat_map};
ghost use Rattle.std.specs.String.{string_bytes};
ghost use Rattle.scenario_image.specs.Scenario.{IsValid};
ghost use Rattle.scenario_mnemonics.specs.Denoting.{mnemonic_of};
ghost use Rattle.scenario_statements.specs.declared.statement.Statement.TheVariants.{Put};
ghost use Rattle.scenario_asm.specs.Canonical.{of_datagram, of_row, of_step, printed_line, printed_lines};

use crate::printing::lines::{put_line, put_statement};
use device_machine::Event;
use lwm2m_values::Value;
use object_defs::Path;
use scenario_image::{Scenario, Step};
use scenario_mnemonics::mnemonic_for;
use scenario_statements::{Statement, recv_line, value_line};
use std::alloc::{AllocError, Global};

/// Writes a datagram that comes from a server: the mnemonic that denotes it, else its bytes.
fn put_datagram(
    alloc: Global,
    out: &mut String,
    server: u16,
    bytes: &[u8],
) -> Result<(), AllocError>
    ensures { OnOk result (string_bytes out.new ≡ string_bytes out.old
        ++ printed_line (of_datagram server bytes.now (mnemonic_of bytes.now))) }
{
    if let Some(mnemonic) = mnemonic_for(alloc, bytes)? {
        return put_statement(alloc, out, &Statement::Request { server, mnemonic });
    }
    let line = recv_line(alloc, server, bytes)?;
    put_line(out, line.as_str())
}

/// Writes a value that is put.
fn put_change(alloc: Global, out: &mut String, path: Path, value: &Value) -> Result<(), AllocError>
    ensures { OnOk result (string_bytes out.new ≡ string_bytes out.old ++ printed_line (Put path value.now)) }
{
    let line = value_line(alloc, "put", path, value)?;
    put_line(out, line.as_str())
}

fn put_step(alloc: Global, out: &mut String, step: &Step) -> Result<(), AllocError>
    ensures { OnOk result (string_bytes out.new ≡ string_bytes out.old ++ printed_line (of_step step.now)) }
{
    match step {
        Step::Event(Event::Recv { server, bytes }) => {
            put_datagram(alloc, out, *server, bytes.as_slice())
        }
        Step::Event(Event::Put { path, value }) => put_change(alloc, out, *path, value),
        Step::Event(Event::Firmware(code)) => {
            put_statement(alloc, out, &Statement::Firmware(*code))
        }
        Step::Event(Event::Tick(seconds)) => put_statement(alloc, out, &Statement::Tick(*seconds)),
        Step::Post(group) => put_statement(alloc, out, &Statement::Post(*group)),
        Step::Need(group, count) => put_statement(
            alloc,
            out,
            &Statement::Need {
                group: *group,
                count: *count,
            },
        ),
    }
}

fn put_steps(alloc: Global, out: &mut String, steps: &[Step]) -> Result<(), AllocError>
    ensures { OnOk result (string_bytes out.new ≡ string_bytes out.old ++ printed_lines (map of_step steps.now)) }
{
    for step in steps {
        put_step(alloc, out, step)?;
    }
    Ok(())
}

/// Writes a device of the class at this place, and its steps.
fn put_row(alloc: Global, out: &mut String, class: u16, steps: &[Step]) -> Result<(), AllocError>
    ensures { OnOk result (string_bytes out.new ≡ string_bytes out.old
        ++ printed_lines (of_row (record { class = class; steps = steps.now }))) }
{
    put_statement(alloc, out, &Statement::Device(class))?;
    put_steps(alloc, out, steps)
}

/// Writes the devices of a scenario, which is valid.
pub(crate) fn put_rows(
    alloc: Global,
    out: &mut String,
    scenario: &Scenario,
) -> Result<(), AllocError>
    ensures text { OnOk result (string_bytes out.new ≡ string_bytes out.old
        ++ printed_lines (flat_map of_row scenario.now.rows)) }
    ensures valid { OnOk result (IsValid scenario.now) }
{
    for device in 0..scenario.rows() {
        if let Some((class, steps)) = scenario.row(device as u16) {
            put_row(alloc, out, class, steps)?;
        }
    }
    Ok(())
}
