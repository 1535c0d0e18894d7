//! Which datagrams of a device are chosen, by their numbers.

/// Numbers of datagrams that follow one another, both ends among them.
#[derive(Clone, Copy)]
pub struct Span {
    pub from: u64,
    pub to: u64,
}

/// Which datagrams are chosen.
#[derive(Drop)]
pub enum Choice {
    /// None.
    Never,
    /// So many of a hundred, as words that are drawn say.
    Share(u8),
    /// Those with these numbers.
    Listed(Vec<Span>),
}
