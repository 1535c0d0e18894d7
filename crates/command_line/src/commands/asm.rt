//! The words of `asm`.
use crate::argument::{Argument, ArgumentKind, Subcommand, arguments};

pub(crate) const COMMAND: Subcommand = Subcommand {
    name: "asm",
    about: "Makes a scenario's image from its text",
    arguments: &arguments! {
        "IN" Needed: "The scenario, as text";
        "OUT" Needed: "Where the image goes";
    },
    below: "\
Reads IN, which is UTF-8. Writes OUT, which is replaced where it exists. Then prints
  ok C classes D devices S steps

Example:
  lwbench asm reader.txt reader.image
  ok 1 classes 1 devices 1 steps",
};
