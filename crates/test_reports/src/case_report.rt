use crate::instead::Instead;

/// Where a case differs.
pub struct Difference<'a> {
    /// The line of its file, counted from 1.
    pub line: u128,
    /// What stands there.
    pub stated: &'a str,
    /// What else is told of it.
    pub instead: Instead,
}

/// What reports tell of a case.
pub struct CaseReport<'a> {
    /// The number of its file, counted from 0.
    pub file: usize,
    /// The path of its file.
    pub path: &'a str,
    /// Its title.
    pub title: &'a str,
    /// The device that it was judged for, where cases are judged for devices.
    pub device: Option<u16>,
    /// What differs, if something does.
    pub difference: Option<Difference<'a>>,
}

/// By hand, so that a caller's proof has one step where it is dropped, and no case for what is told.
impl Drop for Difference<'_> {
    fn drop(self) {
        let Difference {
            line: _,
            stated: _,
            instead: _instead,
        } = self;
    }
}

/// By hand, so that a caller's proof has one step where it is dropped, and no case for what is told.
impl Drop for CaseReport<'_> {
    fn drop(self) {
        let CaseReport {
            file: _,
            path: _,
            title: _,
            device: _,
            difference: _difference,
        } = self;
    }
}
