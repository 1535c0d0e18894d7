use lwm2m_values::Text;

/// A file of cases that was read.
pub struct CaseFile<'a, C> {
    /// Its path.
    pub path: &'a str,
    /// What it has.
    pub text: Text,
    /// Its cases, in their order.
    pub cases: Vec<C>,
}

/// By hand, so that a caller's proof has one step where a file is dropped, and no case for each thing in it.
impl<C: Drop> Drop for CaseFile<'_, C> {
    fn drop(self) {
        let CaseFile {
            path: _,
            text: _text,
            cases: _cases,
        } = self;
    }
}
