ghost use Rattle.std.specs.Prelude.{◌≡◌};
ghost use Rattle.command_files.specs.FaultLine.{case_cause, case_word, fault_word, layout_word, session_word};
ghost use Rattle.command_files.specs.FaultLine.{template_word};

use byte_layout::LayoutFault;
use case_text::{CaseFault, Why};
use device_machine::TemplateFault;
use hex::FromHexError;
use scenario_asm::TextFault;
use scenario_image::ScenarioFault;
use scenario_words::{Cause, cause_words};
use std::alloc::{AllocError, AllocFailed};
use std::fmt;
use trace_file::WriteFault;

/// Why the program could not do what its words ask for. It prints as the fault's name.
#[derive(Clone, Copy)]
pub enum Fault {
    /// A word that has to be hex is not.
    Hex,
    /// No memory was left.
    Memory,
    /// A file could not be read, is larger than 64 MiB, or is no UTF-8 where it has to be text.
    Read,
    /// The answer or a file could not be written.
    Write,
    /// The bytes of a file are not an image, or not a trace file.
    Layout(LayoutFault),
    /// A line of a scenario's text is refused.
    Text(TextFault),
    /// A run has no trace file.
    TooLarge,
    /// A template refused one of its parts.
    Template(TemplateFault),
    /// A run has not from 1 to 64 workers.
    Workers,
    /// A batch is not one of 1 to 64 steps.
    Batch,
    /// A run ended because the lock ran out of tickets.
    Spent,
    /// A scenario has no device of a number.
    NoDevice,
    /// The entries of a trace end before a number.
    PastEnd,
    /// `--to` is below `--from`.
    Range,
    /// A datagram is too long for a capture.
    TooLong,
    /// A UDP port could not be bound.
    Bind,
    /// A word does not say which datagrams a wire loses, doubles, exchanges or delays.
    Wire,
    /// What a device did is not the row of a scenario.
    Session(ScenarioFault),
    /// A line of a file of cases is refused.
    Cases(CaseFault),
    /// No case has a title that begins with the words that were given.
    NoSuchCase,
    /// A statement is none that denotes a datagram.
    NoDatagram,
    /// Slices of a scenario have other classes than those before them.
    OtherClasses,
    /// Slices of a scenario do not fit one another, or have not as many devices as they say.
    Slices,
}

impl fmt::Display for Fault {
    ghost use Rattle.std.specs.Prelude.{Some};
    ghost use Rattle.command_files.specs.FaultLine.{fault_name};

    ghost output = { λ fault. Some (fault_name fault) };

    fn fmt<W: fmt::Write>(&self, f: &mut fmt::Formatter<W>) -> fmt::Result {
        match self {
            Fault::Layout(LayoutFault::BadField(place)) => write!(f, "bad field at {place}"),
            Fault::Layout(LayoutFault::Limit(place)) => write!(f, "limit at {place}"),
            Fault::Text(TextFault { line, cause, .. }) => {
                let words = cause_words(*cause);
                write!(f, "line {line}: {words}")
            }
            Fault::Cases(CaseFault { line, why }) => {
                let word = case_word(*why);
                match case_cause(*why) {
                    Some(cause) => {
                        let words = cause_words(cause);
                        write!(f, "line {line}: {word}: {words}")
                    }
                    None => write!(f, "line {line}: {word}"),
                }
            }
            _ => {
                let word = word_of(*self);
                write!(f, "{word}")
            }
        }
    }
}

/// The line of a fault, as standard output gets it.
#[derive(Clone, Copy)]
pub struct FaultLine(pub Fault);

impl fmt::Display for FaultLine {
    ghost use Rattle.std.specs.Prelude.{Some};
    ghost use Rattle.command_files.specs.FaultLine.{fault_line};

    ghost output = { λ line. Some (fault_line line.0) };

    fn fmt<W: fmt::Write>(&self, f: &mut fmt::Formatter<W>) -> fmt::Result {
        let fault = self.0;
        writeln!(f, "fault: {fault}")
    }
}

/// The name of a fault; of one with a place, a line or a cause, without it.
fn word_of(fault: Fault) -> &'static str
    ensures { result.now ≡ fault_word fault }
{
    match fault {
        Fault::Hex => "hex",
        Fault::Memory => "memory",
        Fault::Read => "read",
        Fault::Write => "write",
        Fault::TooLarge => "too large",
        Fault::Layout(fault) => layout_word(fault),
        Fault::Text(fault) => cause_words(fault.cause),
        Fault::Template(fault) => template_word(fault),
        Fault::Workers => "workers",
        Fault::Batch => "batch",
        Fault::Spent => "spent",
        Fault::NoDevice => "no device",
        Fault::PastEnd => "past end",
        Fault::Range => "range",
        Fault::TooLong => "too long",
        Fault::Bind => "bind",
        Fault::Wire => "wire",
        Fault::Session(fault) => session_word(fault),
        Fault::Cases(fault) => case_word(fault.why),
        Fault::NoSuchCase => "no such case",
        Fault::NoDatagram => "no datagram",
        Fault::OtherClasses => "other classes",
        Fault::Slices => "slices",
    }
}

fn layout_word(fault: LayoutFault) -> &'static str
    ensures { result.now ≡ layout_word fault }
{
    match fault {
        LayoutFault::Magic => "magic",
        LayoutFault::Version => "version",
        LayoutFault::Cut => "cut",
        LayoutFault::Trailing => "trailing",
        LayoutFault::BadField(_) => "bad field",
        LayoutFault::Limit(_) => "limit",
        LayoutFault::Memory => "memory",
    }
}

fn template_word(fault: TemplateFault) -> &'static str
    ensures { result.now ≡ template_word fault }
{
    match fault {
        TemplateFault::Range => "range",
        TemplateFault::Missing => "missing",
        TemplateFault::Duplicate => "duplicate",
        TemplateFault::Full => "full",
        TemplateFault::Memory => "memory",
    }
}

fn session_word(fault: ScenarioFault) -> &'static str
    ensures { result.now ≡ session_word fault }
{
    match fault {
        ScenarioFault::Range => "range",
        ScenarioFault::Missing => "missing",
        ScenarioFault::Limit => "limit",
        ScenarioFault::Memory => "memory",
    }
}

/// Why a line of a file of cases is refused, without its cause.
pub fn case_word(why: Why) -> &'static str
    ensures { result.now ≡ case_word why }
{
    match why {
        Why::NotText => "no text",
        Why::NotAnAnswer(_) => "no such answer",
        Why::NotAQuestion(_) => "no such question",
        Why::NotAnEvent(_) => "no such event",
        Why::NotAnExpectation(_) => "no such expectation",
        Why::NotACount => "`*` wants a number up to 100,000 and a line",
        Why::NotBytes(_) => "no such bytes",
        Why::NoSuchLine => "no such line",
        Why::AddsToNothing => "this adds to nothing",
        Why::NoTextAbove => "no `=> text` stands above this",
        Why::BeforeFirstCase => "this stands before the first case",
        Why::NoTitle => "a case without a title",
        Why::SameTitle => "a case with the title of one above",
        Why::NoAnswer => "a case that states no answer",
        Why::NoAnswerBelow => "no answer stands below this",
        Why::NoCase => "no case",
        Why::Memory => "memory",
    }
}

/// The cause for which the words of an answer, a question, an event, an expectation or bytes are refused.
pub fn case_cause(why: Why) -> Option<Cause>
    ensures { result ≡ case_cause why }
{
    match why {
        Why::NotAnAnswer(cause)
        | Why::NotAQuestion(cause)
        | Why::NotAnEvent(cause)
        | Why::NotAnExpectation(cause)
        | Why::NotBytes(cause) => Some(cause),
        Why::NotText
        | Why::NotACount
        | Why::NoSuchLine
        | Why::AddsToNothing
        | Why::NoTextAbove
        | Why::BeforeFirstCase
        | Why::NoTitle
        | Why::SameTitle
        | Why::NoAnswer
        | Why::NoAnswerBelow
        | Why::NoCase
        | Why::Memory => None,
    }
}

impl From<AllocError> for Fault {
    ghost use Rattle.std.specs.Prelude.{◌≡◌};
    ghost use Rattle.command_files.specs.declared.fault.Fault.TheVariants.{Memory};

    ghost from_gives = { λ _ e. e ≡ Memory };

    fn from(_error: AllocError) -> Fault {
        Fault::Memory
    }
}

impl<T: Drop> From<AllocFailed<T>> for Fault {
    ghost use Rattle.std.specs.Prelude.{◌≡◌};
    ghost use Rattle.command_files.specs.declared.fault.Fault.TheVariants.{Memory};

    ghost from_gives = { λ _ e. e ≡ Memory };

    fn from(_error: AllocFailed<T>) -> Fault {
        Fault::Memory
    }
}

impl From<FromHexError> for Fault {
    ghost use Rattle.std.specs.Prelude.{◌≡◌};
    ghost use Rattle.command_files.specs.Fault.{hex_fault};

    ghost from_gives = { λ error e. e ≡ hex_fault error };

    fn from(error: FromHexError) -> Fault {
        match error {
            FromHexError::OutOfMemory => Fault::Memory,
            _ => Fault::Hex,
        }
    }
}

impl From<TemplateFault> for Fault {
    ghost use Rattle.std.specs.Prelude.{◌≡◌};
    ghost use Rattle.command_files.specs.Fault.{template_fault};

    ghost from_gives = { λ fault e. e ≡ template_fault fault };

    fn from(fault: TemplateFault) -> Fault {
        match fault {
            TemplateFault::Memory => Fault::Memory,
            _ => Fault::Template(fault),
        }
    }
}

impl From<LayoutFault> for Fault {
    ghost use Rattle.std.specs.Prelude.{◌≡◌};
    ghost use Rattle.command_files.specs.Fault.{layout_fault};

    ghost from_gives = { λ fault e. e ≡ layout_fault fault };

    fn from(fault: LayoutFault) -> Fault {
        match fault {
            LayoutFault::Memory => Fault::Memory,
            _ => Fault::Layout(fault),
        }
    }
}

impl From<TextFault> for Fault {
    ghost use Rattle.std.specs.Prelude.{◌≡◌};
    ghost use Rattle.command_files.specs.Fault.{text_fault};

    ghost from_gives = { λ fault e. e ≡ text_fault fault };

    fn from(fault: TextFault) -> Fault {
        match fault.cause {
            Cause::Memory => Fault::Memory,
            _ => Fault::Text(fault),
        }
    }
}

impl From<CaseFault> for Fault {
    ghost use Rattle.std.specs.Prelude.{◌≡◌};
    ghost use Rattle.command_files.specs.Fault.{case_fault};

    ghost from_gives = { λ fault e. e ≡ case_fault fault };

    fn from(fault: CaseFault) -> Fault {
        match fault.why {
            Why::Memory => Fault::Memory,
            _ => Fault::Cases(fault),
        }
    }
}

impl From<ScenarioFault> for Fault {
    ghost use Rattle.std.specs.Prelude.{◌≡◌};
    ghost use Rattle.command_files.specs.Fault.{session_fault};

    ghost from_gives = { λ fault e. e ≡ session_fault fault };

    fn from(fault: ScenarioFault) -> Fault {
        match fault {
            ScenarioFault::Memory => Fault::Memory,
            _ => Fault::Session(fault),
        }
    }
}

impl From<WriteFault> for Fault {
    ghost use Rattle.std.specs.Prelude.{◌≡◌};
    ghost use Rattle.command_files.specs.Fault.{trace_fault};

    ghost from_gives = { λ fault e. e ≡ trace_fault fault };

    fn from(fault: WriteFault) -> Fault {
        match fault {
            WriteFault::TooLarge => Fault::TooLarge,
            WriteFault::Memory => Fault::Memory,
        }
    }
}
