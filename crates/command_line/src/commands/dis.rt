//! The words of `dis`.
use crate::argument::{Argument, ArgumentKind, Subcommand, arguments};

pub(crate) const COMMAND: Subcommand = Subcommand {
    name: "dis",
    about: "Prints a scenario's text",
    arguments: &arguments! {
        "IN" Needed: "The scenario, as an image";
    },
    below: "\
Reads IN. Prints the text in its one canonical form, which `asm` reads again. Writes no file.

Example:
  lwbench dis reader.image
  scenario 1
  ..",
};
