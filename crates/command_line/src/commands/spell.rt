//! The words of `spell`.
use crate::argument::{Argument, ArgumentKind, Subcommand, arguments};

pub(crate) const COMMAND: Subcommand = Subcommand {
    name: "spell",
    about: "Prints the datagram of a statement, in hex",
    arguments: &arguments! {
        "STATEMENT" Several: "The words of a mnemonic, of `recv` or of `ack`";
    },
    below: "\
Reads no file. The words, joined by spaces, are a statement of a scenario's text that denotes a datagram,
a mnemonic or `recv S HEX`, or `ack S MID`, an Empty ACK. Prints the bytes of the datagram, in hex.
Writes no file.

Example:
  lwbench spell read 1 con 1 - /3/0/9 any
  40010001B13301300139",
};
