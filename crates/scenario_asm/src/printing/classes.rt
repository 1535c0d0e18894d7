//! The lines of classes. Where memory runs out, some of them may have been written.

ghost use Rattle.std.specs.Prelude.{◌≡◌, ◌++◌, length, map, OnOk};
ghost use Rattle.std.specs.List.{flat_map, AllByRecursion};
ghost use Rattle.std.specs.String.{string_bytes};
ghost use Rattle.instance_store.specs.Listing.{shown_pairs};
ghost use Rattle.device_template.specs.Built.{IsBuilt};
ghost use Rattle.scenario_layout.specs.Class.{objects_in};
ghost use Rattle.scenario_statements.specs.declared.statement.Statement.TheVariants.{Account, Def, Instance};
ghost use Rattle.scenario_asm.specs.Canonical.{of_class, of_notify, of_object, of_value, printed_line};
ghost use Rattle.scenario_asm.specs.Canonical.{printed_lines};

use crate::printing::lines::{put_line, put_statement};
use device_template::Template;
use lwm2m_values::Value;
use object_defs::{FullPath, InstancePath, ObjectDef, ResourceDef};
use scenario_image::Scenario;
use scenario_statements::{Statement, value_line};
use std::alloc::{AllocError, Global};

/// Writes how the devices of a class notify, where their notifications are Confirmable.
fn put_notify(alloc: Global, out: &mut String, seconds: u8) -> Result<(), AllocError>
    ensures { OnOk result (string_bytes out.new ≡ string_bytes out.old ++ printed_lines (of_notify seconds)) }
{
    if seconds == 0 {
        return Ok(());
    }
    put_statement(alloc, out, &Statement::Notify(seconds))
}

fn put_accounts(alloc: Global, out: &mut String, accounts: &[u16]) -> Result<(), AllocError>
    ensures { OnOk result (string_bytes out.new ≡ string_bytes out.old
        ++ printed_lines (map (λ s. Account s) accounts.now)) }
{
    for account in accounts {
        put_statement(alloc, out, &Statement::Account(*account))?;
    }
    Ok(())
}

fn put_definitions(
    alloc: Global,
    out: &mut String,
    definitions: &[ResourceDef],
) -> Result<(), AllocError>
    ensures { OnOk result (string_bytes out.new ≡ string_bytes out.old
        ++ printed_lines (map (λ d. Def d) definitions.now)) }
{
    for definition in definitions {
        put_statement(alloc, out, &Statement::Def(*definition))?;
    }
    Ok(())
}

/// Writes an object and its resources.
fn put_object(alloc: Global, out: &mut String, object: &ObjectDef) -> Result<(), AllocError>
    ensures { OnOk result (string_bytes out.new ≡ string_bytes out.old ++ printed_lines (of_object object.now)) }
{
    put_statement(alloc, out, &Statement::Object(object.id))?;
    put_definitions(alloc, out, object.resources.as_slice())
}

fn put_objects(alloc: Global, out: &mut String, objects: &[ObjectDef]) -> Result<(), AllocError>
    ensures { OnOk result (string_bytes out.new ≡ string_bytes out.old
        ++ printed_lines (flat_map of_object objects.now)) }
{
    for object in objects {
        put_object(alloc, out, object)?;
    }
    Ok(())
}

fn put_instances(
    alloc: Global,
    out: &mut String,
    instances: &[InstancePath],
) -> Result<(), AllocError>
    ensures { OnOk result (string_bytes out.new ≡ string_bytes out.old
        ++ printed_lines (map (λ p. Instance p) instances.now)) }
{
    for place in instances {
        put_statement(alloc, out, &Statement::Instance(*place))?;
    }
    Ok(())
}

fn put_value(
    alloc: Global,
    out: &mut String,
    path: FullPath,
    value: &Value,
) -> Result<(), AllocError>
    ensures { OnOk result (string_bytes out.new ≡ string_bytes out.old ++ printed_line (of_value (path, value.now))) }
{
    let line = value_line(alloc, "value", path.to_path(), value)?;
    put_line(out, line.as_str())
}

fn put_values(
    alloc: Global,
    out: &mut String,
    values: &[(FullPath, &Value)],
) -> Result<(), AllocError>
    ensures { OnOk result (string_bytes out.new ≡ string_bytes out.old
        ++ printed_lines (map of_value (shown_pairs values.now))) }
{
    for (path, value) in values {
        put_value(alloc, out, *path, value)?;
    }
    Ok(())
}

/// The objects of the class's own: those after the five base objects.
fn own_objects(class: &Template) -> &[ObjectDef]
    ensures { result.now ≡ objects_in class.now }
{
    match class.catalog().objects() {
        [_, _, _, _, _, own @ ..] => own,
        _ => &[],
    }
}

/// Writes a class: how it notifies, its accounts, the objects of its own, its instances and its values, each ascending.
fn put_class(alloc: Global, out: &mut String, class: &Template) -> Result<(), AllocError>
    ensures text { OnOk result (string_bytes out.new ≡ string_bytes out.old ++ printed_lines (of_class class.now)) }
    ensures built { OnOk result (IsBuilt class.now) }
{
    put_statement(alloc, out, &Statement::Class)?;
    put_notify(alloc, out, class.notify())?;
    put_accounts(alloc, out, class.accounts())?;
    put_objects(alloc, out, own_objects(class))?;
    let instances = class.store().all_instances()?;
    put_instances(alloc, out, instances.as_slice())?;
    let values = class.store().values()?;
    put_values(alloc, out, values.as_slice())
}

/// How many classes there are: at most 256, as the scenario is valid.
fn class_count(scenario: &Scenario) -> u16
    ensures { result ≡ length scenario.now.classes }
{
    // For the proof alone: a scenario whose rows are counted is known to be valid.
    let _known = scenario.rows();
    scenario.classes() as u16
}

/// Writes the classes of a scenario, which are what accepted additions made.
pub(crate) fn put_classes(
    alloc: Global,
    out: &mut String,
    scenario: &Scenario,
) -> Result<(), AllocError>
    ensures text { OnOk result (string_bytes out.new ≡ string_bytes out.old
        ++ printed_lines (flat_map of_class scenario.now.classes)) }
    ensures built { OnOk result (AllByRecursion IsBuilt scenario.now.classes) }
{
    for number in 0..class_count(scenario) {
        if let Some(class) = scenario.class(number) {
            put_class(alloc, out, class)?;
        }
    }
    Ok(())
}
