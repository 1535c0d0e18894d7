ghost use Rattle.std.specs.Prelude.{◌≡◌, true, None, Some, OnOk, IfErr};
ghost use Rattle.byte_layout.specs.declared.fault.ReadError.TheVariants.{Memory};
ghost use Rattle.object_defs.specs.Catalog.{object_of};
ghost use Rattle.object_defs.specs.Vendor.{is_vendor, new_object, with_resource};
ghost use Rattle.device_template.specs.Template.{definition_fault, with_catalog};
ghost use Rattle.scenario_layout.specs.Definition.{resources};
ghost use Rattle.scenario_layout.specs.Growing.{with_definitions};

use crate::class::refusal::refusal;
use byte_layout::ReadError;
use device_template::Template;
use object_defs::ResourceDef;

/// Adds the definitions to a new object of the class. They are none that it refuses.
pub(crate) fn define(
    template: &mut Template,
    id: u16,
    definitions: &[ResourceDef],
) -> Result<(), ReadError>
    requires new { object_of template.now.catalog id ≡ Some (new_object id) }
    requires vendor { is_vendor id ≡ true }
    requires good { resources.Good definitions.now }
    ensures made { OnOk result (template.new
        ≡ with_catalog template.old (with_definitions template.old.catalog id definitions.now)) }
    ensures only_memory { IfErr result (λ e. e ≡ Memory) }
{
    for definition in definitions {
        add_definition(template, id, definition)?;
    }
    Ok(())
}

/// Adds a definition that the class does not refuse.
fn add_definition(
    template: &mut Template,
    id: u16,
    definition: &ResourceDef,
) -> Result<(), ReadError>
    requires { definition_fault template.now id definition.now ≡ None }
    ensures made { OnOk result (template.new
        ≡ with_catalog template.old (with_resource template.old.catalog id definition.now)) }
    ensures only_memory { IfErr result (λ e. e ≡ Memory) }
{
    match template.add_resource(id, *definition) {
        Ok(()) => Ok(()),
        Err(fault) => Err(refusal(fault, 0)),
    }
}
