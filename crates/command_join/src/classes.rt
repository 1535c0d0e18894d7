//! Whether two scenarios have the same classes. A class has one form in an image, so that its bytes say all of it.
ghost use Rattle.std.specs.Prelude.{◌≡◌, ◌↔◌, IfOk, IsTrue};
ghost use Rattle.scenario_layout.specs.Class.{class};

use device_template::Template;
use scenario_image::Scenario;
use scenario_layout::{exact_layouts, put_class};
use std::alloc::{AllocError, Global};

/// The bytes of a class in an image of version 2.
fn bytes_of(alloc: Global, template: &Template) -> Result<Vec<u8>, AllocError>
    ensures good { (class 2).Good template.now }
    ensures bytes { IfOk result (λ v. v.items ≡ (class 2).spell template.now) }
{
    let mut out = Vec::new(alloc);
    put_class(&mut out, template)?;
    Ok(out)
}

fn are_same_bytes(a: &[u8], b: &[u8]) -> bool
    ensures { IsTrue result ↔ (a.now ≡ b.now) }
{
    a == b
}

/// Whether two classes are the same.
fn is_same_class(alloc: Global, a: &Template, b: &Template) -> Result<bool, AllocError>
    ensures { IfOk result (λ same. IsTrue same ↔ (a.now ≡ b.now)) }
{
    // The proof needs that the layout of a class is exact, which this call says.
    exact_layouts();
    let left = bytes_of(alloc, a)?;
    let right = bytes_of(alloc, b)?;
    Ok(are_same_bytes(left.as_slice(), right.as_slice()))
}

/// Whether two scenarios have the same classes, in the same order.
pub(crate) fn have_same_classes(
    alloc: Global,
    a: &Scenario,
    b: &Scenario,
) -> Result<bool, AllocError>
    ensures { IfOk result (λ same. IsTrue same ↔ (a.now.classes ≡ b.now.classes)) }
{
    // For the proof alone: a scenario whose rows are counted is known to be valid.
    let _known = a.rows();
    if a.classes() != b.classes() {
        return Ok(false);
    }
    for place in 0..a.classes() {
        let (Some(one), Some(other)) = (a.class(place as u16), b.class(place as u16)) else {
            return Err(AllocError);
        };
        if !is_same_class(alloc, one, other)? {
            return Ok(false);
        }
    }
    Ok(true)
}
