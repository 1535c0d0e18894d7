/// How the entries of a trace are printed.
#[derive(Clone, Copy)]
pub enum TraceForm {
    /// As text.
    Text,
    /// As text, and below each arriving datagram why the device answered like that.
    Reasons,
    /// As an object in JSON for each.
    JsonLines,
    /// As an object in JSON for each, with the reasons.
    ReasonedLines,
}
