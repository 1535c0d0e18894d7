//! The words of `live`.
use crate::argument::{Argument, ArgumentKind, Subcommand, arguments};

pub(crate) const COMMAND: Subcommand = Subcommand {
    name: "live",
    about: "Lets a device answer the datagrams that arrive at a UDP port",
    arguments: &arguments! {
        "IMAGE" Needed: "The scenario, as an image";
        "DEVICE" NeededNumber(0, 65_535): "The number of the device";
        "PORT" NeededNumber(0, 65_535): "Its UDP port (0: any free port)";
        "TURNS" NeededNumber(1, 100_000): "How many turns it takes, 1 to 100000";
        "save" Text("FILE"): "Where the image of what happened goes";
        "show" Flag: "Prints what happens while it goes on";
    },
    below: "\
Reads IMAGE. Starts the device DEVICE of it, without the steps of its row, and lets it answer the datagrams
that arrive at the UDP port PORT of this machine, until TURNS turns are over, 1 to 100000. Writes the
image of what happened to the FILE of `--save`, which is replaced where it exists, and no file without
it. With `--show` prints what happens while it goes on. At the end prints
  end NAME steps N sent M

Example:
  lwbench live reader.image 0 5683 1000 --show",
};
