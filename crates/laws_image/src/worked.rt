//! A small scenario, its image, and the trace file of its serial run.

ghost use Rattle.laws_image.specs.WorkedImage.{HasWorkedFaults, IsEmptyImage, IsWorkedImage};
ghost use Rattle.laws_image.specs.WorkedTrace.{IsWorkedTrace};

/// The 56 and the 57 bytes of the image of a small scenario in version 1 and 2, with one account, instance, value and
/// step (`worked`); the images of a scenario without classes (`empty`).
pub fn image_is_spelled()
    ensures worked { IsWorkedImage }
    ensures empty { IsEmptyImage }
{}

/// Bytes near those of `image_is_spelled` are no image, each for one of the six faults.
pub fn faults_are_found()
    ensures { HasWorkedFaults }
{}

/// The bytes of the trace file of one entry.
pub fn trace_is_spelled()
    ensures { IsWorkedTrace }
{}
