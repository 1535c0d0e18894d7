//! What follows from the layouts, for their readers. The calls do nothing; their contracts are the laws.

ghost use Rattle.std.specs.Prelude.{◌≡◌, ◌<◌, ◌≤◌, ℕ, ◌∷◌, All, length, true, nat_lt, List, Option, IfSome};
ghost use Rattle.std.specs.List.{list_all};
ghost use Rattle.byte_layout.specs.Exact.{IsBytes, IsExact};
ghost use Rattle.lwm2m_values.specs.declared.kind.ValueKind.{ValueKind};
ghost use Rattle.lwm2m_values.specs.declared.value.Value.{Value};
ghost use Rattle.lwm2m_values.specs.Value.{kind_of, IsGood};
ghost use Rattle.object_defs.specs.declared.path.FullPath.{FullPath};
ghost use Rattle.object_defs.specs.declared.path.InstancePath.{InstancePath};
ghost use Rattle.object_defs.specs.declared.definition.ResourceDef.{ResourceDef};
ghost use Rattle.scenario_layout.specs.Class.{class, instances_in, objects_in, values_in};
ghost use Rattle.scenario_layout.specs.Definition.{flags_of, flags_fit, kind_fits, resource, resources};
ghost use Rattle.scenario_layout.specs.Value.{place, path, kind, fits, value};

use device_template::Template;

/// Each layout of this crate is exact, so that it may be a part of an exact format.
pub fn exact_layouts()
    ensures place { IsExact place }
    ensures path { IsExact path }
    ensures kind { IsExact kind }
    ensures value { (wanted : Option ValueKind) → IsExact (value wanted) }
    ensures definition { (before : List ResourceDef) → IsExact (resource before) }
    ensures definitions { IsExact resources }
    ensures class { (version : ℕ) → IsExact (class version) }
{}

/// What has bytes: paths of numbers below 65,536; valid values whose kind fits, and only those, if what they spell is
/// bytes; and definitions whose number is above those before them, an executable one single and of the kind Text.
pub fn what_has_bytes()
    ensures place { (p : InstancePath) → p.object < 65536 → p.instance < 65536 → place.Good p }
    ensures path { (p : FullPath) → p.object < 65536 → p.instance < 65536 → p.resource < 65536
        → IfSome p.part (λ n. n < 65536) → path.Good p }
    ensures kind { (k : ValueKind) → kind.Good k }
    ensures value { (wanted : Option ValueKind) (v : Value) → IsGood v → fits wanted (kind_of v) ≡ true
        → (value wanted).Good v }
    ensures good { (wanted : Option ValueKind) (v : Value) → (value wanted).Good v → IsBytes ((value wanted).spell v)
        → IsGood v × (fits wanted (kind_of v) ≡ true) }
    ensures definition { (before : List ResourceDef) (r : ResourceDef) → r.id < 65536
        → list_all (λ q. nat_lt q.id r.id) before ≡ true
        → flags_fit r.ops (flags_of r.multiple r.mandatory) ≡ true → kind_fits r.ops r.kind ≡ true
        → (resource before).Good r }
{}

/// Each class that there is has bytes in version 2, and in version 1 where its notifications are Non-confirmable. Those
/// of version 2 are a byte more, the first, which says how it notifies.
pub fn class_has_bytes(template: &Template)
    ensures second { (class 2).Good template.now }
    ensures first { template.now.notify ≡ 0 → (class 1).Good template.now }
    ensures longer { (class 2).spell template.now ≡ template.now.notify ∷ (class 1).spell template.now }
{
    // For the proof alone: a template's accounts are known to be those of a class that accepted additions made.
    let _known = template.accounts();
}

/// There are no more of each part of a class than its bytes can tell, and its definitions and values have bytes.
pub(crate) fn good_parts(template: &Template)
    ensures objects { length (objects_in template.now) ≤ 11 }
    ensures defined { All (λ o. resources.Good o.resources) (objects_in template.now) }
    ensures instances { length (instances_in template.now) < 65536 }
    ensures values { length (values_in template.now) < 65536 }
    ensures held { All (λ e. IsGood e.1) (values_in template.now) }
{
    // For the proof alone: a template's accounts are known to be those of a class that accepted additions made.
    let _known = template.accounts();
}
