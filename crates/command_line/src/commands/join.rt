//! The words of `join`.
use crate::argument::{Argument, ArgumentKind, Subcommand, arguments};

pub(crate) const COMMAND: Subcommand = Subcommand {
    name: "join",
    about: "Makes one scenario of the rows of several",
    arguments: &arguments! {
        "OUT" Needed: "Where its image goes";
        "IMAGE" Several: "An image whose rows it has, as IMAGE or A-B=IMAGE";
    },
    below: "\
Reads each IMAGE, a scenario's image. All have the same classes. Writes to OUT, which is replaced where it
exists, the image of a scenario of these classes, which has the rows of the first, then those of the second,
and so on; no other file. If the images are given as A-B=IMAGE, each has the devices A to B, as `fleet` saves
them with `--devices A-B`; they may come in any order, and no device between the first and the last of all
may be missing, or be there twice. Prints
  joined N devices of N images

Example:
  lwbench join night.image 0-999=first.image 1000-1999=second.image",
};
