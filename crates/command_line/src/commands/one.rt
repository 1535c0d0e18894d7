//! The words of `one`.
use crate::argument::{Argument, ArgumentKind, Subcommand, arguments};

pub(crate) const COMMAND: Subcommand = Subcommand {
    name: "one",
    about: "Gives the demonstration device one datagram from server 1",
    arguments: &arguments! {
        "HEX" Needed: "The bytes of the datagram, in hex";
        "json" Flag: "Prints JSON Lines, for scripts";
        "why" Flag: "Prints why the device answers so";
    },
    below: "\
Reads no file. Prints a line for each output of the device, a datagram or another act, or `nothing`. With
`--why` the first of them is followed by what the reply says, and by the rule that decides and what it read:
  send SERVER HEX
      # WORDS
      # REASON
  act NAME
With `--json` prints the outputs as one object in JSON, in a line. Writes no file.

Example:
  lwbench one 40010001B13301300139
  send 1 60450001C0FF313030",
};
