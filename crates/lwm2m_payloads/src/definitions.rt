ghost use Rattle.std.specs.Prelude.{◌≡◌};
ghost use Rattle.std.specs.Option.{option_copied};
ghost use Rattle.object_defs.specs.Catalog.{resource_in};
ghost use Rattle.lwm2m_payloads.specs.Changes.{is_kept_as};

use object_defs::ResourceDef;

/// The definition of the resource of this number.
pub(crate) fn definition_in(resources: &[ResourceDef], id: u16) -> Option<&ResourceDef>
    ensures { option_copied result ≡ resource_in resources.now id }
{
    resources.iter().find(|r| r.id == id)
}

/// Whether the value of the resource of this number is kept: that of a write-only one is not.
pub fn is_kept(resources: &[ResourceDef], id: u16) -> bool
    ensures { result ≡ is_kept_as (resource_in resources.now id) }
{
    match definition_in(resources, id) {
        None => false,
        Some(definition) => definition.ops.can_read(),
    }
}
