//! `lwbench`: a bench of emulated LwM2M devices. What the program does for each of its commands, from its words to the
//! status that it ends with. The words are read here (`command_line`), and one family of commands is called, each of
//! which is a crate of its own:
//!
//! | Commands | Crate |
//! |---|---|
//! | `one` | `command_demo` |
//! | `say`, `spell` | `command_words` |
//! | `play` | `command_play` |
//! | `asm`, `dis`, `run`, `check` | `command_scenarios` |
//! | `join` | `command_join` |
//! | `lint` | `command_lint` |
//! | `show`, `pcap` | `command_traces` |
//! | `debug` | `command_debug` |
//! | `test` | `command_test` |
//! | `live` | `command_live` |
//! | `fleet` | `command_fleet` |
//!
//! What they share is in `command_files`. What each is answered with stands in specs/Command.antt (`IsDone`,
//! `IsDebugged`, `IsLived`, `AreServed`, `IsLogAnswered`), and why it is refused (`IsRefusedJob`).
#![tactic(auto)]

mod asked;
mod fleets;
mod forms;
mod jobs;
mod program;
mod system;

pub use program::command;
use std::io::IsTerminal;
use std::process::ExitCode;
pub use system::{conclude, start, system_host};

/// Gives `start` the system's world, with its reader of standard input and its standard error, and says whether that is
/// a terminal.
fn main(rt: HostRuntime) -> ExitCode {
    let errors = rt.stderr();
    let terminal = errors.is_terminal();
    let mut world = system_host(&rt, rt.reader(), errors);
    start(&rt, terminal, &mut world)
}
