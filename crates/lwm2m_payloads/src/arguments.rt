ghost use Rattle.std.specs.Prelude.{◌≡◌, ◌↔◌, not, is_some, IsTrue, MatchOption};
ghost use Rattle.lwm2m_payloads.specs.Arguments.{is_digit, is_text_byte, AreArguments, IsArgumentFault};
ghost use Rattle.lwm2m_payloads.specs.Scanning.{are_arguments, step, is_end, run};

/// A place in the arguments, by what stands before it.
#[derive(Clone, Copy, PartialEq, Eq)]
enum Place {
    /// Nothing.
    Start,
    /// A comma.
    Comma,
    /// A digit.
    Digit,
    /// A digit and `=`.
    Equals,
    /// A quote, and what is read of the text after it.
    Text,
    /// A text's last quote.
    Quote,
    /// What begins no arguments.
    Nowhere,
}

fn is_digit(byte: u8) -> bool
    ensures { result ≡ is_digit byte }
{
    byte >= 48 && byte <= 57
}

/// Whether a quoted text may hold the byte.
fn is_text_byte(byte: u8) -> bool
    ensures { result ≡ is_text_byte byte }
{
    byte == 0x21
        || byte >= 0x23 && byte <= 0x26
        || byte >= 0x28 && byte <= 0x5B
        || byte >= 0x5D && byte <= 0x7E
}

impl Place {
    /// Where a digit leads.
    fn after_first(byte: u8) -> Place
        ensures { result ≡ step Place.Start byte }
    {
        if is_digit(byte) {
            Place::Digit
        } else {
            Place::Nowhere
        }
    }

    fn after_digit(byte: u8) -> Place
        ensures { result ≡ step Place.Digit byte }
    {
        match byte {
            b',' => Place::Comma,
            b'=' => Place::Equals,
            _ => Place::Nowhere,
        }
    }

    fn in_text(byte: u8) -> Place
        ensures { result ≡ step Place.Text byte }
    {
        if is_text_byte(byte) {
            Place::Text
        } else if byte == b'\'' {
            Place::Quote
        } else {
            Place::Nowhere
        }
    }

    /// Where a byte leads from here.
    fn step(self, byte: u8) -> Place
        ensures { result ≡ step self byte }
    {
        match self {
            Place::Start => Place::after_first(byte),
            Place::Comma => Place::after_first(byte),
            Place::Digit => Place::after_digit(byte),
            Place::Equals => {
                if byte == b'\'' {
                    Place::Text
                } else {
                    Place::Nowhere
                }
            }
            Place::Text => Place::in_text(byte),
            Place::Quote => {
                if byte == b',' {
                    Place::Comma
                } else {
                    Place::Nowhere
                }
            }
            Place::Nowhere => Place::Nowhere,
        }
    }

    /// Whether the arguments may end here.
    fn is_end(self) -> bool
        ensures { result ≡ is_end self }
    {
        match self {
            Place::Start => true,
            Place::Comma => false,
            Place::Digit => true,
            Place::Equals => false,
            Place::Text => false,
            Place::Quote => true,
            Place::Nowhere => false,
        }
    }
}

/// Whether these bytes lead from the start to an end.
fn are_read(payload: &[u8]) -> bool
    ensures { result ≡ run Place.Start payload.now }
{
    let mut place = Place::Start;
    for byte in payload {
        place = place.step(*byte);
    }
    place.is_end()
}

/// Whether the payload of an Execute is arguments (OMA LwM2M 1.1 Core): none, or items joined by commas, each a digit,
/// or a digit, `=` and a text in single quotes of the bytes 21, 23 to 26, 28 to 5B and 5D to 7E in hexadecimal.
pub fn are_arguments(payload: &[u8]) -> bool
    ensures arguments { IsTrue result ↔ AreArguments payload.now }
    ensures test { result ≡ are_arguments payload.now }
{
    are_read(payload)
}

/// Where a payload stops being arguments: the place of the first byte, counted from 0, that cannot stand there; or the
/// payload's length, where it ends too early. None where it is arguments.
pub fn argument_fault(payload: &[u8]) -> Option<usize>
    ensures place { MatchOption result (AreArguments payload.now) (IsArgumentFault payload.now) }
    ensures test { is_some result ≡ not (are_arguments payload.now) }
{
    let mut place = Place::Start;
    let mut at: usize = 0;
    for byte in payload {
        match place.step(*byte) {
            Place::Nowhere => return Some(at),
            next => {
                place = next;
                at += 1;
            }
        }
    }
    if place.is_end() { None } else { Some(at) }
}
