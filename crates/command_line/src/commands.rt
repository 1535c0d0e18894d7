//! The subcommands of the program.
mod asm;
mod check;
mod debug;
mod dis;
mod fleet;
mod join;
mod lint;
mod live;
mod one;
mod pcap;
mod play;
mod run;
mod say;
mod show;
mod spell;
mod test;

use crate::argument::Subcommand;

/// The subcommands, in the order in which help lists them.
pub(crate) const COMMANDS: [Subcommand; 16] = [
    one::COMMAND,
    say::COMMAND,
    spell::COMMAND,
    play::COMMAND,
    asm::COMMAND,
    dis::COMMAND,
    run::COMMAND,
    check::COMMAND,
    show::COMMAND,
    pcap::COMMAND,
    debug::COMMAND,
    live::COMMAND,
    fleet::COMMAND,
    join::COMMAND,
    lint::COMMAND,
    test::COMMAND,
];
