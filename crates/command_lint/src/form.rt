/// How findings are printed.
#[derive(Clone, Copy)]
pub enum LintForm {
    /// A line of text for each.
    Text,
    /// A line of text for each, and below it why the device answered like that.
    Reasons,
    /// An object in JSON for each, in a line of its own.
    JsonLines,
}
