/// Where an answer of a case stands.
#[derive(Clone, Copy)]
pub struct AnswerPlace {
    /// The place of its item among the items, counted from 0.
    pub item: usize,
    /// Its own place among the answers below that item, counted from 0.
    pub answer: usize,
}
