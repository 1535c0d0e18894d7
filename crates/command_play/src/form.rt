/// How the entries of a run are printed, and how it ended.
#[derive(Clone, Copy)]
pub enum PlayForm {
    /// As text.
    Text,
    /// As text, and below each arriving datagram why the device answered like that.
    Reasons,
    /// As an object in JSON for each.
    JsonLines,
    /// As an object in JSON for each, with the reasons.
    ReasonedLines,
}
