//! What the words of the command line ask for.
ghost use Rattle.std.specs.Prelude.{◌≡◌, ◌≢◌, ◌⊎◌, List, None, Some, codes, map, IfNone, IfOk, IfSome};
ghost use Rattle.std.specs.String.{string_bytes};
ghost use Rattle.clap.specs.Words.{Row, Text as Word, first_of, found_of, kind_of, one_of, rows_of};
ghost use Rattle.clap.specs.Words.{subcommand_rows_of};
ghost use Rattle.command_line.specs.declared.words.Asked.{Asked as AskedData};
ghost use Rattle.command_line.specs.Words.{AsksToLive, IsReadAs, MayAskFor};
ghost use Rattle.command_line.specs.Inside.{IsTakenAs, LacksFleet, LacksLive, LacksSay};

use crate::fleet_words::{AskedFleet, fleet_of};
use crate::jobs::job_in;
use crate::subcommands::bench;
use crate::values::{flag, number, small_number, value_of};
use clap::error::ErrorKind;
use clap::{ArgMatches, Error};
use std::alloc::{AllocError, Global};

/// What is said of an argument that is no text.
pub const NO_TEXT: &str =
    "error: invalid UTF-8 was detected in one or more arguments\n\nUsage: lwbench <COMMAND>\n\n\
     For more information, try '--help'.\n";

/// What is said where titles are asked for and cases are to be played too.
const LISTS_AND_PLAYS: &str =
    "error: the argument '--list' cannot be used with '--tap', '--json', '--junit <FILE>' or \
     '--on <IMAGE>'\n\nUsage: lwbench test [OPTIONS] <FILE>...\n\nFor more information, try '--help'.\n";

/// What is said where a device is named, and no scenario that has it.
const DEVICE_OF_NOTHING: &str =
    "error: the following required arguments were not provided:\n  --on <IMAGE>\n\n\
     Usage: lwbench test --on <IMAGE> --device <N> <FILE>...\n\nFor more information, try '--help'.\n";

/// What is said where cases are asked for in two forms.
const JSON_AND_TAP: &str = "error: the argument '--json' cannot be used with '--tap'\n\n\
     Usage: lwbench test [OPTIONS] <FILE>...\n\nFor more information, try '--help'.\n";

/// What is said where the outputs for a datagram are asked for in two forms.
const ONE_JSON_AND_WHY: &str = "error: the argument '--json' cannot be used with '--why'\n\n\
     Usage: lwbench one [OPTIONS] <HEX>\n\nFor more information, try '--help'.\n";

/// The same of what servers did wrong.
const LINT_JSON_AND_WHY: &str = "error: the argument '--json' cannot be used with '--why'\n\n\
     Usage: lwbench lint [OPTIONS] <FILE>\n       lwbench lint [OPTIONS] --rules\n\n\
     For more information, try '--help'.\n";

/// What is said where a session is to be judged that is not saved.
const EXPECTS_UNSAVED: &str =
    "error: the following required arguments were not provided:\n  --save <FILE>\n\n\
     Usage: lwbench fleet --save <FILE> --expect <FILE> <FILE> <PORT>\n\nFor more information, try '--help'.\n";

/// What is said where a session is to be reported that is not judged.
const REPORTS_NOTHING: &str =
    "error: the following required arguments were not provided:\n  --expect <FILE>\n\n\
     Usage: lwbench fleet --save <FILE> --expect <FILE> --junit <FILE> <FILE> <PORT>\n\n\
     For more information, try '--help'.\n";

/// What is said where `lint` has neither a file nor `--rules`.
const LINTS_NOTHING: &str =
    "error: the following required arguments were not provided:\n  <FILE>\n\n\
     Usage: lwbench lint [OPTIONS] <FILE>\n       lwbench lint [OPTIONS] --rules\n\n\
     For more information, try '--help'.\n";

/// What is said where `lint` has a file and `--rules`.
const LINTS_AND_LISTS: &str = "error: the argument '--rules' cannot be used with '<FILE>'\n\n\
     Usage: lwbench lint [OPTIONS] <FILE>\n       lwbench lint [OPTIONS] --rules\n\n\
     For more information, try '--help'.\n";

/// What is said where the rules of `lint` are asked for as objects.
const RULES_AS_OBJECTS: &str = "error: the argument '--json' cannot be used with '--rules'\n\n\
     Usage: lwbench lint [OPTIONS] --rules\n\nFor more information, try '--help'.\n";

/// What is said where reasons are asked for beside the rules of `lint`.
const RULES_WITH_REASONS: &str = "error: the argument '--why' cannot be used with '--rules'\n\n\
     Usage: lwbench lint [OPTIONS] --rules\n\nFor more information, try '--help'.\n";

/// How the entries of a trace are printed.
#[derive(Clone, Copy)]
pub enum EntriesForm {
    /// As text.
    Text,
    /// As text, and below each datagram that arrives why the device answered like that.
    Reasons,
    /// As an object in JSON for each.
    JsonLines,
    /// As an object in JSON for each, with the reasons.
    ReasonedLines,
}

/// How the outputs of a device are printed, or what servers did wrong.
#[derive(Clone, Copy)]
pub enum TraceForm {
    /// As text.
    Text,
    /// As text, with reasons.
    Reasons,
    /// As an object in JSON for each.
    JsonLines,
}

/// How it is printed what came of cases.
#[derive(Clone, Copy)]
pub enum CaseForm {
    /// As text.
    Text,
    /// As TAP.
    Tap,
    /// As an object in JSON for each.
    JsonLines,
}

/// What the words ask the program to do. It borrows them.
#[derive(Drop)]
pub enum Job<'a> {
    /// The demonstration device takes one datagram.
    One {
        /// The bytes of the datagram, in hex.
        hex: &'a str,
        /// How the outputs are printed.
        form: TraceForm,
    },
    /// What a datagram says.
    Say {
        /// The bytes of the datagram, in hex.
        hex: &'a str,
        /// The server that sends it.
        server: u16,
    },
    /// The datagram of a statement.
    Spell {
        /// The words of the statement.
        statement: Vec<&'a str>,
    },
    /// The text of a scenario's serial run, or of a part of it.
    Play {
        /// The path of the scenario's text or image.
        file: &'a str,
        /// The device whose entries are shown; where it is not given, all are.
        device: Option<u16>,
        /// The number of the first entry that may be shown; where it is not given, 0.
        from: Option<u32>,
        /// The number of the last entry that may be shown; where it is not given, that of the last of all.
        to: Option<u32>,
        /// How the entries are printed.
        form: EntriesForm,
    },
    /// The image of a scenario, from its text.
    Asm {
        /// The path of the text.
        input: &'a str,
        /// Where the image goes.
        output: &'a str,
    },
    /// The canonical text of a scenario.
    Dis {
        /// The path of the scenario's image.
        input: &'a str,
    },
    /// A run of a scenario.
    Run {
        /// The path of the scenario's image.
        image: &'a str,
        /// How many workers make it.
        workers: u16,
        /// The most steps of a device that a worker makes at a time.
        batch: u32,
        /// Where the trace file goes, if anywhere.
        trace: Option<&'a str>,
    },
    /// Whether a trace is a run of a scenario.
    Check {
        /// The path of the scenario's image.
        image: &'a str,
        /// The path of the trace file.
        trace: &'a str,
        /// Whether the verdict is printed as an object in JSON.
        json: bool,
    },
    /// A run's trace, or a part of it.
    Show {
        /// The path of the scenario's image.
        image: &'a str,
        /// The path of the run's trace file.
        trace: &'a str,
        /// The device whose entries are shown; where it is not given, all are.
        device: Option<u16>,
        /// The number of the first entry that may be shown; where it is not given, 0.
        from: Option<u32>,
        /// The number of the last entry that may be shown; where it is not given, that of the last of all.
        to: Option<u32>,
        /// How the entries are printed.
        form: EntriesForm,
    },
    /// The datagrams of a run, as a capture of packets.
    Pcap {
        /// The path of the scenario's image.
        image: &'a str,
        /// The path of the run's trace file.
        trace: &'a str,
        /// Where the capture goes.
        output: &'a str,
    },
    /// What a run shows, at the commands of a session.
    Debug {
        /// The path of the scenario's image.
        image: &'a str,
        /// The path of the run's trace file.
        trace: &'a str,
        /// Whether reasons are asked for, so that `why` is a command.
        reasons: bool,
    },
    /// The titles of cases.
    Titles {
        /// The paths of the files of cases.
        files: Vec<&'a str>,
        /// How the titles begin; where it is not given, all are printed.
        only: Option<&'a str>,
    },
    /// Which cases differ.
    Test {
        /// The paths of the files of cases.
        files: Vec<&'a str>,
        /// How the titles begin of the cases that are played; where it is not given, all are.
        only: Option<&'a str>,
        /// How it is printed what came of them.
        form: CaseForm,
        /// Where the JUnit report goes, if anywhere.
        junit: Option<&'a str>,
    },
    /// Whether servers sent what they have to.
    Expect {
        /// The paths of the files of expectations.
        files: Vec<&'a str>,
        /// The path of the text or image of the scenario whose rows received what they sent.
        image: &'a str,
        /// The device that is looked at; where it is not given, all are.
        device: Option<u16>,
        /// How the titles begin of the cases that are looked at; where it is not given, all are.
        only: Option<&'a str>,
        /// How it is printed what came of them.
        form: CaseForm,
        /// Where the JUnit report goes, if anywhere.
        junit: Option<&'a str>,
    },
    /// One scenario of the rows of several.
    Join {
        /// Where its image goes.
        output: &'a str,
        /// The paths of the scenarios' images, each alone or as `A-B=IMAGE`.
        images: Vec<&'a str>,
    },
    /// What servers did wrong in the steps of a scenario.
    Lint {
        /// The path of the scenario's text or image; where it is not given, the rules are printed.
        file: Option<&'a str>,
        /// The names of the rules that are looked at; where there is none, all are.
        only: Vec<&'a str>,
        /// The names of the rules that are not looked at.
        except: Vec<&'a str>,
        /// How what is found is printed; as text where the rules are printed.
        form: TraceForm,
    },
}

/// A device that receives the datagrams of the network, and answers them.
#[derive(Clone, Copy)]
pub struct Live<'a> {
    /// The path of the scenario's image.
    pub image: &'a str,
    /// The number of the device.
    pub device: u16,
    /// The UDP port that it receives at; 0 for one that the system chooses.
    pub port: u16,
    /// How many turns it goes on for.
    pub turns: u32,
    /// Where the image of what happened goes, if anywhere.
    pub save: Option<&'a str>,
    /// Whether what happens is shown.
    pub show: bool,
}

/// What the words ask for.
#[derive(Drop)]
pub enum Asked<'a> {
    /// Something to do, whose answer is printed at its end.
    Job(Job<'a>),
    /// What the datagrams say that are the lines of standard input, in hex.
    Log {
        /// The server that sends them.
        server: u16,
    },
    /// A device on the network, of which is printed while it goes on.
    Live(Live<'a>),
    /// Devices on the network.
    Fleet(AskedFleet<'a>),
    /// A text to print: help, or what is wrong with the words.
    Text {
        /// The text.
        text: String,
        /// Whether the words are wrong.
        is_mistake: bool,
    },
}

/// What the words ask for, of which the first is the program's name: a job, or a text on how to use the program if
/// `clap` has an error for them, or if they exclude each other. Which errors there are is said in the terms of `clap`,
/// which reads the words; what the texts say is not proved.
pub fn read<'a>(alloc: Global, words: &'a [String]) -> Result<Asked<'a>, AllocError>
    ensures { IfOk result (IsReadAs (map string_bytes words.now)) }
{
    match bench(alloc)?.try_get_matches_from(words) {
        Ok(found) => taken(alloc, &found),
        Err(error) => Ok(Asked::Text {
            text: told(alloc, &error)?,
            is_mistake: error.use_stderr(),
        }),
    }
}

/// What words that `clap` took ask for.
#[tactic(auto, using(crate::proofs::Asking::taken_for))]
fn taken<'a>(alloc: Global, found: &ArgMatches<'a>) -> Result<Asked<'a>, AllocError>
    ensures { IfOk result (IsTakenAs (subcommand_rows_of found.now)) }
{
    match asked_of(alloc, found)? {
        Some(asked) => Ok(asked),
        None => Ok(Asked::Text {
            text: usage(alloc, found)?,
            is_mistake: true,
        }),
    }
}

fn asked_of<'a>(alloc: Global, found: &ArgMatches<'a>) -> Result<Option<Asked<'a>>, AllocError>
    ensures some { IfOk result (λ o. IfSome o (λ asked. (p : Word × List Row) × (subcommand_rows_of found.now ≡ Some p)
        × MayAskFor p asked)) }
    ensures none { IfOk result (λ o. IfNone o ((p : Word × List Row) (asked : AskedData)
        → subcommand_rows_of found.now ≡ Some p → MayAskFor p asked → ⊥)) }
{
    match found.subcommand() {
        Some((name, inner)) => asked_in(alloc, name, inner),
        None => Ok(None),
    }
}

#[tactic(auto, using(crate::proofs::Asking::not_live, crate::proofs::Asking::not_fleet, crate::proofs::Asking::not_say, crate::proofs::Asking::no_job))]
fn asked_in<'a>(
    alloc: Global,
    name: &str,
    found: &ArgMatches<'a>,
) -> Result<Option<Asked<'a>>, AllocError>
    ensures some { IfOk result (λ o. IfSome o (MayAskFor (name.now, rows_of (found_of found.now)))) }
    ensures none { IfOk result (λ o. IfNone o ((asked : AskedData)
        → MayAskFor (name.now, rows_of (found_of found.now)) asked → ⊥)) }
{
    match name {
        "live" => Ok(live_asked(found)),
        "fleet" => fleet_asked(alloc, found),
        "say" => Ok(say_asked(found)),
        _ => match job_in(alloc, name, found)? {
            Some(job) => Ok(Some(Asked::Job(job))),
            None => Ok(None),
        },
    }
}

/// What is asked of a datagram, or of a log where `-` stands for its hex.
fn say_asked<'a>(found: &ArgMatches<'a>) -> Option<Asked<'a>>
    ensures some { IfSome result (MayAskFor (codes "say", rows_of (found_of found.now))) }
    ensures none { IfNone result (LacksSay (rows_of (found_of found.now))) }
{
    let hex = value_of(found, "HEX")?;
    let server = small_number(found, "server")?;
    if hex == "-" {
        return Some(Asked::Log { server });
    }
    Some(Asked::Job(Job::Say { hex, server }))
}

fn live_asked<'a>(found: &ArgMatches<'a>) -> Option<Asked<'a>>
    ensures some { IfSome result (MayAskFor (codes "live", rows_of (found_of found.now))) }
    ensures none { IfNone result (LacksLive (rows_of (found_of found.now))) }
{
    Some(Asked::Live(live_of(found)?))
}

fn live_of<'a>(found: &ArgMatches<'a>) -> Option<Live<'a>>
    ensures some { IfSome result (AsksToLive (codes "live", rows_of (found_of found.now))) }
    ensures none { IfNone result (LacksLive (rows_of (found_of found.now))) }
{
    Some(Live {
        image: value_of(found, "IMAGE")?,
        device: small_number(found, "DEVICE")?,
        port: small_number(found, "PORT")?,
        turns: number(found, "TURNS")?,
        save: value_of(found, "save"),
        show: flag(found, "show"),
    })
}

fn fleet_asked<'a>(alloc: Global, found: &ArgMatches<'a>) -> Result<Option<Asked<'a>>, AllocError>
    ensures some { IfOk result (λ o. IfSome o (MayAskFor (codes "fleet", rows_of (found_of found.now)))) }
    ensures none { IfOk result (λ o. IfNone o (LacksFleet (rows_of (found_of found.now)))) }
{
    match fleet_of(alloc, found)? {
        Some(fleet) => Ok(Some(Asked::Fleet(fleet))),
        None => Ok(None),
    }
}

/// The text of what `clap` did not take.
fn told(alloc: Global, error: &Error) -> Result<String, AllocError>
    ensures { IfOk result (λ _. kind_of error.now ≢ ErrorKind.OutOfMemory) }
{
    if error.kind() == ErrorKind::OutOfMemory {
        return Err(AllocError);
    }
    error.to_string(alloc)
}

/// The text on words that `clap` took, and that ask for nothing.
fn usage(alloc: Global, found: &ArgMatches) -> Result<String, AllocError> {
    match mistake_in(found) {
        Some(text) => String::from_str(alloc, text),
        None => bench(alloc)?.render_help(),
    }
}

/// What is wrong with the words of a command, if they exclude each other or lack one.
fn mistake_in(found: &ArgMatches) -> Option<&'static str> {
    match found.subcommand() {
        Some((name, inner)) => mistake_of(name, inner),
        None => None,
    }
}

fn mistake_of(name: &str, found: &ArgMatches) -> Option<&'static str> {
    match name {
        "test" => Some(test_usage(found)),
        "lint" => Some(lint_usage(found)),
        "fleet" => Some(fleet_usage(found)),
        "one" => Some(ONE_JSON_AND_WHY),
        _ => None,
    }
}

fn test_usage(found: &ArgMatches) -> &'static str {
    if flag(found, "tap") && flag(found, "json") {
        JSON_AND_TAP
    } else if flag(found, "list") {
        LISTS_AND_PLAYS
    } else {
        DEVICE_OF_NOTHING
    }
}

fn fleet_usage(found: &ArgMatches) -> &'static str {
    if value_of(found, "expect").is_some() {
        EXPECTS_UNSAVED
    } else {
        REPORTS_NOTHING
    }
}

fn lint_usage(found: &ArgMatches) -> &'static str {
    if flag(found, "json") && flag(found, "why") {
        LINT_JSON_AND_WHY
    } else if !flag(found, "rules") {
        LINTS_NOTHING
    } else if value_of(found, "FILE").is_some() {
        LINTS_AND_LISTS
    } else if flag(found, "json") {
        RULES_AS_OBJECTS
    } else {
        RULES_WITH_REASONS
    }
}
