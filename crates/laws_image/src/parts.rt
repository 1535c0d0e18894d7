//! The parts of images and trace files, one of each kind.

ghost use Rattle.laws_image.specs.Parts.{DefinitionsHaveBytes, EntriesHaveBytes, OutputsHaveBytes, StepsHaveBytes};
ghost use Rattle.laws_image.specs.Parts.{ValuesHaveBytes};

use scenario_image::exact_layouts;

/// The bytes of a value of each kind, of definitions with each operation and flag, of a step of each kind, of an output
/// of each kind, and of two entries.
pub fn parts_have_bytes()
    ensures values { ValuesHaveBytes }
    ensures definitions { DefinitionsHaveBytes }
    ensures steps { StepsHaveBytes }
    ensures outputs { OutputsHaveBytes }
    ensures entries { EntriesHaveBytes }
{
    exact_layouts();
}
