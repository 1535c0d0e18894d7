/// A digit of bytes that a case states.
#[derive(Clone, Copy)]
pub enum Digit {
    /// `.`: any hex digit.
    Any,
    /// A hex digit, by its value, which is below 16.
    Is(u8),
}
