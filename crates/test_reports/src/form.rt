/// How it is printed what came of cases.
#[derive(Clone, Copy)]
pub enum ReportForm {
    /// The cases that differ, as text.
    Text,
    /// All of them as TAP, version 14.
    Tap,
    /// An object in JSON for each.
    JsonLines,
}
