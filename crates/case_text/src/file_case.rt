use crate::trial::Trials;
use lwm2m_values::Text;
use octets::Bytes;

/// What a file is.
#[derive(Clone, Copy)]
pub enum FileKind {
    /// `image BYTES`: the image of a scenario.
    Image,
    /// `trace BYTES`: a trace file.
    Trace,
    /// `text`, and `| LINE` for each line: a scenario's text.
    Text,
}

/// A case of a file: what is found in it, and in others that are made of it.
#[derive(Drop)]
pub struct FileCase {
    /// The title.
    pub title: Text,
    /// The line of the title, counted in the file from 1.
    pub line: usize,
    /// What the file is.
    pub kind: FileKind,
    /// The bytes that the body gives.
    pub bytes: Bytes,
    /// What is stated of the file, and of files that are made of it, in the order of the lines.
    pub trials: Trials,
}
