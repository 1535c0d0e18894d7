use crate::numbered::Numbered;
use lwm2m_values::Text;

/// A title, and the lines below it.
#[derive(Drop)]
pub(crate) struct Body {
    /// The title.
    pub(crate) title: Text,
    /// The line of the title.
    pub(crate) line: usize,
    /// The lines below it.
    pub(crate) lines: Vec<Numbered>,
}
