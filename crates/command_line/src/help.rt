//! The version, and what the help of the program says below its commands.

/// The version, and the program logic in which it is proved, as `rt version` names it at the end of its line.
pub const VERSION: &str = "0.2.0
logic dac8208d650f15bf";

pub const BENCH: &str =
    "An answer goes to standard output. A fault is the line `fault: NAME` there, and a line on standard
error says which file or word it is about, and why. With `--json` an object in JSON takes the place of that
line.

Status:
  0  it was done
  1  a fault
  2  the words are not a command
  3  the run stalled, the trace is not a run, a case differs, a server broke a rule, or `--strict` and a
     datagram was lost";
