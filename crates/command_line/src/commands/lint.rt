//! The words of `lint`.
use crate::argument::{Argument, ArgumentKind, Subcommand, arguments};

pub(crate) const COMMAND: Subcommand = Subcommand {
    name: "lint",
    about: "Finds what servers did wrong in the steps of a scenario",
    arguments: &arguments! {
        "FILE" MayStand: "The scenario, as text or as an image";
        "only" Texts("RULE"): "Only this rule, or these";
        "not" Texts("RULE"): "Not this rule, or these";
        "rules" Flag: "Prints the rules, and reads no file";
        "json" Flag: "Prints JSON Lines, for scripts";
        "why" Flag: "Prints why the device answers so";
    },
    below: "\
Reads FILE: what begins with LWSC is a scenario's image, as `fleet` and `live` save it, any other file its text.
Goes through the datagrams of each device, those that servers sent and those that the device sends, and
prints a line for each of them that breaks a rule, and at the end how many
  device D step K second S: RULE: WORDS (STANDARD section N)
  N findings
The status is 3 if there is one. With `--only` these rules alone are looked at, with `--not` all but these.
With `--why` a line below what a server sent says why the device handles it so. With `--json` prints each
finding as an object in JSON, in a line, and so the count. With `--rules` in the place of FILE prints the
rules. Writes no file.

Example:
  lwbench lint night.image --not repeated-too-soon",
};
