//! Cases as files have them: a text for the assembler, and what its devices have to output and to hold.
//! docs/use/cases.md has it in words.
#![tactic(auto)]

mod above;
mod adding;
mod answer;
mod any_line;
mod asking;
mod body;
mod bytes_words;
mod case;
mod checking;
mod digit;
mod digits;
mod expanding;
mod fault;
mod file;
mod file_answer;
mod file_case;
mod file_grouping;
mod file_reading;
mod file_stated;
mod file_stating;
mod grouping;
mod item;
mod line;
mod marks;
mod numbered;
mod numbers;
mod pieces;
mod question;
mod reading;
mod scenario_case;
mod stated;
mod stating;
mod trial;

pub use above::{Above, Adding, CaseKind};
pub use answer::{Answer, Answers};
pub use any_line::read_line;
pub use asking::read_question;
pub use case::Case;
pub use digit::Digit;
pub use digits::Digits;
pub use fault::{CaseFault, Why};
pub use file::read_cases;
pub use file_answer::{FileAnswer, FileAnswers};
pub use file_case::{FileCase, FileKind};
pub use file_stated::FileStated;
pub use item::{Item, Items, Part};
pub use line::{FileLine, Line};
pub use numbers::{DeviceNumbers, LineNumbers};
pub use pieces::read_digits;
pub use question::Question;
pub use scenario_case::ScenarioCase;
pub use stated::{EndStated, OutputStated, Stated, VerdictStated, WrittenStated};
pub use stating::read_stated;
pub use trial::{Made, Trial, Trials};
