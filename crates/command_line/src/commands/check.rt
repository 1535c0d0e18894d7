//! The words of `check`.
use crate::argument::{Argument, ArgumentKind, Subcommand, arguments};

pub(crate) const COMMAND: Subcommand = Subcommand {
    name: "check",
    about: "Says whether a trace is a run of a scenario",
    arguments: &arguments! {
        "IMAGE" Needed: "The scenario, as an image";
        "TRACE" Needed: "The trace file";
        "json" Flag: "Prints JSON Lines, for scripts";
    },
    below: "\
Reads IMAGE, and then TRACE. Prints whether the trace is a run of the scenario, or the least place,
from 0, at which it is not (status 3):
  run
  not a run at N
With `--json` prints this as an object in JSON. Writes no file.

Example:
  lwbench check reader.image reader.trace
  run",
};
