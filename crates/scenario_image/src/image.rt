//! Scenarios, read from this profile's images of them, of version 1 or 2, and written as that of version 2.

ghost use Rattle.std.specs.Prelude.{◌≡◌, ◌≢◌, ◌≤◌, ◌++◌, ◌∷◌, [], length, Ok, Err, OnOk, IfOk, IsOk, IfErr};
ghost use Rattle.std.specs.Prelude.{IsErrAnd, IsTrue, MatchResult};
ghost use Rattle.byte_layout.specs.declared.fault.Break.{Break};
ghost use Rattle.byte_layout.specs.declared.fault.LayoutFault.{LayoutFault};
ghost use Rattle.byte_layout.specs.declared.fault.LayoutFault.TheVariants.{Memory};
ghost use Rattle.byte_layout.specs.declared.fault.ReadError.TheVariants as errors;
ghost use Rattle.byte_layout.specs.Outcome.{Gives};
ghost use Rattle.byte_layout.specs.Layout.{each};
ghost use Rattle.byte_layout.specs.Whole.{fault_of_break, read_all};
ghost use Rattle.scenario_layout.specs.Class.{class};
ghost use Rattle.scenario_image.specs.Scenario.{Scenario, no_class};
ghost use Rattle.scenario_image.specs.Image.{classes, lists, header, image, front, IsImage, IsImageIn, HasImageFault};

use crate::rows::{put_rows, rows_at};
use crate::scenario::Scenario;
use byte_layout::{
    Break, Format, Items, LayoutFault, ReadError, fault_at, items_at, load as load_all, put_u8,
    put_u16, put_u32, u8_at, u16_at_most, u32_at,
};
use device_machine::Template;
use scenario_layout::{class_at, put_class};
use std::alloc::{AllocError, Global};

/// Classes, one after another, as this version of the image has them.
#[derive(Drop)]
struct Classes {
    version: u8,
}

impl Items for Classes {
    ghost use Rattle.scenario_layout.specs.Class.{class};

    type Item = Template;

    ghost part = { λ classes before. class classes.version };

    fn item_at<'a>(
        &self,
        alloc: Global,
        _before: &[Template],
        bytes: &'a [u8],
    ) -> Result<(Template, &'a [u8]), ReadError> {
        class_at(alloc, self.version, bytes)
    }
}

/// The classes of a scenario in an image of this version, and the bytes after them.
#[tactic(auto, unfolding(crate::specs::Image::classes))]
fn classes_at(alloc: Global, version: u8, bytes: &[u8]) -> Result<(Vec<Template>, &[u8]), ReadError>
    ensures { Gives (λ x. (x.0.items, x.1.now)) result ((classes version).read bytes.now) }
{
    let (count, rest) = u16_at_most(256, bytes)?;
    items_at(&Classes { version }, alloc, usize::from(count), rest)
}

/// The classes and the rows in an image of this version, and the bytes after them.
#[tactic(auto, unfolding(crate::specs::Image::lists))]
fn lists_at(alloc: Global, version: u8, bytes: &[u8]) -> Result<(Scenario, &[u8]), ReadError>
    ensures { Gives (λ x. (x.0, x.1.now)) result ((lists version).read bytes.now) }
{
    let (classes, rest) = classes_at(alloc, version, bytes)?;
    let (rows, rest) = rows_at(alloc, &classes, rest)?;
    Ok((Scenario::of_parts(alloc, classes, rows), rest))
}

/// The version, after the mark, and the bytes after it.
fn header_at(bytes: &[u8]) -> Result<(u8, &[u8]), ReadError>
    ensures read { Gives (λ x. ((x.0, tt), x.1.now)) result (header.read bytes.now) }
    ensures no_memory { IfErr result (λ e. e ≢ errors.Memory) }
{
    let (mark, rest) = u32_at(bytes)?;
    if mark != 0x4C57_5343 {
        return Err(ReadError::Fault(Break::Magic));
    }
    let (version, rest) = u8_at(rest)?;
    if version != 1 && version != 2 {
        return Err(ReadError::Fault(Break::Version));
    }
    Ok((version, rest))
}

/// The version and how many classes there are, after the mark, and the bytes after them.
#[tactic(auto, unfolding(crate::specs::Image::front))]
fn front_at(bytes: &[u8]) -> Result<((u8, u16), &[u8]), ReadError>
    ensures read { Gives (λ x. (x.0, x.1.now)) result (front.read bytes.now) }
    ensures no_memory { IfErr result (λ e. e ≢ errors.Memory) }
{
    let (version, rest) = header_at(bytes)?;
    let (count, rest) = u16_at_most(256, rest)?;
    Ok(((version, count), rest))
}

/// The image of a scenario, read with its version.
struct Image;

impl Format for Image {
    ghost use Rattle.std.specs.Prelude.{ℕ};
    ghost use Rattle.scenario_image.specs.Scenario.{Scenario};
    ghost use Rattle.scenario_image.specs.Image.{image};

    type Value = (u8, Scenario);

    ghost Data = { ℕ × Scenario };

    ghost view = { λ x. (x.0, x.1) };

    ghost layout = { image };

    #[tactic(auto, unfolding(crate::specs::Image::image))]
    fn read(alloc: Global, bytes: &[u8]) -> Result<((u8, Scenario), &[u8]), ReadError> {
        let (version, rest) = header_at(bytes)?;
        let (scenario, rest) = lists_at(alloc, version, rest)?;
        Ok(((version, scenario), rest))
    }
}

/// Whether there is no class, and after that stands a count of no rows, and no more.
fn is_no_class(count: u16, rest: &[u8]) -> bool
    ensures found { IsTrue result → (count ≡ 0) × (rest.now ≡ 0 ∷ 0 ∷ []) }
    ensures only { count ≡ 0 → rest.now ≡ 0 ∷ 0 ∷ [] → IsTrue result }
{
    match (count, rest) {
        (0, [0, 0]) => true,
        _ => false,
    }
}

/// The scenario whose image these bytes are, all of them, in version 1 or 2, otherwise their one fault, the first from
/// the left. The classes of version 1 send Non-confirmable notifications.
///
/// A count or a length above its limit is `Limit`, one that is too large for the bytes `Cut`, and any other field that
/// does not fit `BadField`. A place counts bytes from 0 and is the first byte of the field. Bytes that end within the
/// mark, the version or the count of classes have that fault, whatever memory there is (`front`); the scenario without
/// a class and a row takes none (`empty`). No room is made for more than is read.
pub fn load(alloc: Global, bytes: &[u8]) -> Result<Scenario, LayoutFault>
    ensures found { IfOk result (λ s. IsImage bytes.now s) }
    ensures only { (s : Scenario) → IsImage bytes.now s → MatchResult result (λ x. x ≡ s) (λ f. f ≡ Memory) }
    ensures fault { IfErr result (λ f. f ≢ Memory → HasImageFault bytes.now f) }
    ensures refused { (f : LayoutFault) → HasImageFault bytes.now f → IsErrAnd result (λ g. g ≢ Memory → g ≡ f) }
    ensures front { (b : Break) → front.Breaks bytes.now b → result ≡ Err (fault_of_break (length bytes.now) b) }
    ensures empty { IsImage bytes.now no_class → IsOk result }
{
    // Another file than an image is refused by its front, and a scenario of nothing is made of it: no memory is taken.
    match front_at(bytes) {
        Err(error) => Err(fault_at(bytes.len(), error)),
        Ok(((_, count), rest)) => {
            if is_no_class(count, rest) {
                return Ok(Scenario::empty(alloc));
            }
            match load_all::<Image>(alloc, bytes) {
                Err(fault) => Err(fault),
                Ok((_, scenario)) => Ok(scenario),
            }
        }
    }
}

/// Writes classes, one after another, as version 2 has them. Each of them has bytes.
fn put_each_class(out: &mut Vec<u8>, list: &[Template]) -> Result<(), AllocError>
    ensures good { OnOk result ((each (λ before. class 2) (length list.now) []).Good list.now) }
    ensures bytes { OnOk result (out.new.items ≡ out.old.items
        ++ (each (λ before. class 2) (length list.now) []).spell list.now) }
{
    for template in list {
        put_class(out, template)?;
    }
    Ok(())
}

/// Writes the classes of a scenario.
#[tactic(auto, using(crate::proofs::Saving::few_good), unfolding(crate::specs::Image::classes))]
fn put_classes(out: &mut Vec<u8>, list: &[Template]) -> Result<(), AllocError>
    requires { length list.now ≤ 256 }
    ensures good { OnOk result ((classes 2).Good list.now) }
    ensures bytes { OnOk result (out.new.items ≡ out.old.items ++ (classes 2).spell list.now) }
{
    put_u16(out, list.len() as u16)?;
    put_each_class(out, list)?;
    Ok(())
}

/// Writes the classes and the rows.
#[tactic(auto, using(crate::proofs::Saving::lists_good, crate::proofs::Saving::valid_rows), unfolding(crate::specs::Image::lists))]
fn put_lists(out: &mut Vec<u8>, scenario: &Scenario) -> Result<(), AllocError>
    ensures good { OnOk result ((lists 2).Good scenario.now) }
    ensures bytes { OnOk result (out.new.items ≡ out.old.items ++ (lists 2).spell scenario.now) }
{
    let rows = scenario.all_rows();
    let classes = scenario.all_classes();
    put_classes(out, classes)?;
    put_rows(out, classes, rows)?;
    Ok(())
}

/// Writes the image of version 2.
#[tactic(auto, using(crate::proofs::Saving::image_good), unfolding(crate::specs::Image::image))]
fn put_image(out: &mut Vec<u8>, scenario: &Scenario) -> Result<(), AllocError>
    ensures good { OnOk result (image.Good (2, scenario.now)) }
    ensures bytes { OnOk result (out.new.items ≡ out.old.items ++ image.spell (2, scenario.now)) }
{
    put_u32(out, 0x4C57_5343)?;
    put_u8(out, 2)?;
    put_lists(out, scenario)?;
    Ok(())
}

/// The image of the scenario in version 2, from which `load` reads it again. Every scenario has one; it fails only
/// where memory runs out.
pub fn save(alloc: Global, scenario: &Scenario) -> Result<Vec<u8>, AllocError>
    ensures image { IfOk result (λ v. IsImageIn 2 v.items scenario.now) }
    ensures again { IfOk result (λ v. read_all image v.items ≡ Ok (2, scenario.now)) }
{
    let mut out = Vec::new(alloc);
    put_image(&mut out, scenario)?;
    Ok(out)
}
