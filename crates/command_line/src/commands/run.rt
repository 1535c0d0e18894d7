//! The words of `run`.
use crate::argument::{Argument, ArgumentKind, Subcommand, arguments};

pub(crate) const COMMAND: Subcommand = Subcommand {
    name: "run",
    about: "Runs a scenario: workers let its devices step until none can",
    arguments: &arguments! {
        "IMAGE" Needed: "The scenario, as an image";
        "workers" NumberOr("N", 0, 65_535, "2"): "How many workers there are";
        "batch" NumberOr("N", 0, 4_294_967_295, "16"): "The most steps that a worker makes at a time";
        "trace" Text("FILE"): "Where the trace of the run goes";
    },
    below: "\
Reads IMAGE. Workers run it, 1 to 64, each on a thread of its own: a worker claims a device and makes
up to `--batch` steps of it, 1 to 64. In which order devices step is free; what each device does is not.
Writes the run's trace file to the FILE of `--trace`, which is replaced where it exists, and no file
without it. Then prints, for a run of E steps, whether all devices came to their ends, or which of them
wait for a post that never comes (status 3):
  done E
  stalled E waiting D ..

Example:
  lwbench run reader.image --trace reader.trace
  done 1",
};
