//! The words of `show`.
use crate::argument::{Argument, ArgumentKind, Subcommand, arguments};

pub(crate) const COMMAND: Subcommand = Subcommand {
    name: "show",
    about: "Prints the trace of a run, as text or as JSON Lines",
    arguments: &arguments! {
        "IMAGE" Needed: "The scenario that was run, as an image";
        "TRACE" Needed: "The trace file of the run";
        "device" Number("N", 0, 65_535): "Print only the entries of this device";
        "from" Number("N", 0, 4_294_967_295): "The first number that is printed";
        "to" Number("N", 0, 4_294_967_295): "The last number that is printed";
        "json" Flag: "Prints JSON Lines, for scripts";
        "why" Flag: "Prints why the device answers so";
    },
    below: "\
Reads IMAGE, and then TRACE. Prints the entries of the trace in their order: a line for each, with its
number in the trace, its worker, its device, the number of its step in the device's row, the device's
second before the step, and the step; and a line for each output. Below a datagram stands what it says, and
first, below a mnemonic, its bytes:
  N worker W device D step K second S: STEP
  => send SERVER HEX
  => act NAME
With `--device` only entries of this device are printed; with `--from` and `--to` only entries that have
these numbers or numbers between them. With `--json` an object in JSON is printed for each of them, in a
line of its own, and before them one for the whole trace. With `--why` a line stands below what a datagram
that arrives says: the rule by which the device answers so, and what it read; with both options the object
has it. Where the trace is not a run of the scenario, prints the least place, from 0, at which it is not
(status 3):
  not a run at N
Writes no file.

Example:
  lwbench show reader.image reader.trace
  0 worker 1 device 0 step 0 second 0: read 1 con 1 - /3/0/9 any
      # 40010001B13301300139
      # CON 0.01 GET, message 1, /3/0/9
  => send 1 60450001C0FF313030
      # ACK 2.05 Content, message 1, text/plain \"100\"",
};
