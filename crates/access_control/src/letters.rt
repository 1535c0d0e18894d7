ghost use Rattle.std.specs.Prelude.{◌≡◌};
ghost use Rattle.access_control.specs.Rights.{letters_in, letters_of, no_right, read_alone, read_and_write};
ghost use Rattle.access_control.specs.Rights.{every_right};

/// What a server may do to an object instance, letter by letter (OMA LwM2M 1.1 Core).
#[derive(Clone, Copy, PartialEq, Eq)]
pub struct Rights {
    /// R: Read, Observe and Write-Attributes.
    pub read: bool,
    /// W: Write.
    pub write: bool,
    /// E: Execute.
    pub execute: bool,
    /// D: Delete.
    pub delete: bool,
    /// C: Create.
    pub create: bool,
}

/// No letter.
pub(crate) const NONE: Rights = Rights {
    read: false,
    write: false,
    execute: false,
    delete: false,
    create: false,
};

/// R alone.
pub(crate) const READ: Rights = Rights { read: true, ..NONE };

/// R and W.
pub(crate) const READ_WRITE: Rights = Rights {
    write: true,
    ..READ
};

/// All five letters.
pub(crate) const EVERY: Rights = Rights {
    read: true,
    write: true,
    execute: true,
    delete: true,
    create: true,
};

/// The letters of an entry: the low five bits of its two's complement.
pub(crate) fn letters_of(number: i64) -> Rights
    ensures { result ≡ letters_of number }
{
    let bits = number.cast_unsigned();
    Rights {
        read: bits & 1 != 0,
        write: bits & 2 != 0,
        execute: bits & 4 != 0,
        delete: bits & 8 != 0,
        create: bits & 16 != 0,
    }
}
