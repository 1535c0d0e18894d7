/// A question and its answer.
#[derive(Clone, Copy)]
pub struct Case<'a> {
    /// The subject, and what is asked about it.
    pub question: &'a str,
    /// What stands after the arrow.
    pub answer: &'a str,
    /// Whether that is the answer, after ` => `, or must not be, after ` =/> `.
    pub is_same: bool,
}

/// A line of a table.
#[derive(Clone, Copy)]
pub enum Line<'a> {
    /// Empty, or begun by `#`.
    Comment,
    /// A question beside its answer.
    Case(Case<'a>),
    /// Neither, and why.
    Unread(&'static str),
}

/// What a line of a table is.
pub fn read_line(line: &str) -> Line<'_> {
    let line = line.trim();
    if line.is_empty() || line.starts_with('#') {
        return Line::Comment;
    }
    match (line.split_once(" => "), line.split_once(" =/> ")) {
        (Some((question, answer)), None) => case_of(question, answer, true),
        (None, Some((question, answer))) => case_of(question, answer, false),
        (Some(_), Some(_)) => Line::Unread("two arrows"),
        (None, None) => Line::Unread("no arrow"),
    }
}

fn case_of<'a>(question: &'a str, answer: &'a str, is_same: bool) -> Line<'a> {
    Line::Case(Case {
        question: question.trim(),
        answer: answer.trim(),
        is_same,
    })
}
