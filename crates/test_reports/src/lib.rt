//! Reports of cases, whatever the cases are about: as text, as TAP, as JSON Lines and as JUnit XML. And what stands
//! before them: the files of cases, and which of their cases are asked for.
#![tactic(auto)]

mod answer;
mod case_file;
mod case_report;
mod choice;
mod escaping;
mod form;
mod in_json;
mod instead;
mod junit;
mod lines;
mod objects;
mod reading;
mod report;
mod tap;
mod test_case;

pub use answer::{no_such_case, report_answer};
pub use case_file::CaseFile;
pub use case_report::{CaseReport, Difference};
pub use choice::{ChosenCase, chosen_cases};
pub use form::ReportForm;
pub use instead::{CameAnswer, CameAnswers, Instead};
pub use lines::line_at;
pub use reading::read_files;
pub use test_case::TestCase;
