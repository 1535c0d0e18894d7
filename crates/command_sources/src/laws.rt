//! What follows from the definitions, for their readers. The calls do nothing; their contracts are the laws.
ghost use Rattle.command_sources.specs.Sources.{ImagesAreMarked, NoTextIsMarked};

/// A file that begins with an image's mark is no text of a scenario, so nothing that it could say is passed over.
pub fn no_text_is_marked()
    ensures { NoTextIsMarked }
{}

/// A file that does not begin with it is no image.
pub fn images_are_marked()
    ensures { ImagesAreMarked }
{}
