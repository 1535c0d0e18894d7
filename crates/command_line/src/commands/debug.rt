//! The words of `debug`.
use crate::argument::{Argument, ArgumentKind, Subcommand, arguments};

pub(crate) const COMMAND: Subcommand = Subcommand {
    name: "debug",
    about: "Answers commands about a run of a scenario",
    arguments: &arguments! {
        "IMAGE" Needed: "The scenario that was run, as an image";
        "TRACE" Needed: "The trace file of the run";
        "why" Flag: "Answers why a device answers so, too";
    },
    below: "\
Reads IMAGE, and then TRACE. Then reads commands from standard input, a line each, and answers each.
`quit` ends it, and so does the end of the input. A line that is no command is answered `bad command`,
and shown on standard error; on the line `help`, standard error gets the list of the commands. With `--why`
`why D` is a command, too: why device D handled the datagram of its latest step so. Where the trace is not
a run of the scenario, prints the least place, from 0, at which it is not (status 3):
  not a run at N
Writes no file.

Example:
  lwbench debug reader.image reader.trace
  forward 1
  at 1
  out 0
  send 1 60450001C0FF313030
  quit",
};
