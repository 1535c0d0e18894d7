//! The words of `say`.
use crate::argument::{Argument, ArgumentKind, Subcommand, arguments};

pub(crate) const COMMAND: Subcommand = Subcommand {
    name: "say",
    about: "Prints what a datagram says, and the statement that denotes it",
    arguments: &arguments! {
        "HEX" Needed: "The bytes of the datagram, in hex; -: the lines of standard input";
        "server" NumberOr("S", 1, 65_534, "1"): "The server that sends it, 1 to 65534";
    },
    below: "\
Reads no file. Prints the statement that denotes the datagram, as a scenario's text has it, and below it
what the datagram says. An Empty ACK is `ack S MID`:
  STATEMENT
      # WORDS
Where HEX is `-`, reads lines of hex from standard input to its end, and prints this for each line that is
not empty; spaces around a line are dropped. A line that is not hex is a fault, and nothing is printed.
Writes no file.

Example:
  lwbench say 40010001B13301300139
  read 1 con 1 - /3/0/9 any
      # CON 0.01 GET, message 1, /3/0/9",
};
