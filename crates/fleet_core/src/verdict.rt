/// What a list of entries is.
#[derive(Clone, Copy)]
pub enum Verdict {
    /// It is a run of the scenario.
    Run,
    /// It is none, and this is the least place, counted from 0, at which it breaks off.
    NotRun(usize),
}
