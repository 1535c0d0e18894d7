/// Whether the datagrams of a row are what the lines of a case say.
#[derive(Clone, Copy)]
pub enum Verdict {
    /// They are.
    Met,
    /// They are not.
    Missed {
        /// The place of a line among the lines of the case, counted from 0: the lines before it can be laid beside the
        /// datagrams, and with it they cannot.
        place: usize,
    },
}
