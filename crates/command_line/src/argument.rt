//! The words of commands, as tables.

/// An argument of a command: a word, or an option that begins with `--`.
pub(crate) struct Argument {
    pub name: &'static str,
    pub kind: ArgumentKind,
    /// What help says of it.
    pub help: &'static str,
}

/// Which words an argument is. Help calls the value of an option by the text that comes first.
pub(crate) enum ArgumentKind {
    /// A word that has to be there.
    Needed,
    /// A word that has to be there, and may be there several times.
    Several,
    /// A word that may be there.
    MayStand,
    /// A number that has to be there, from the first to the second.
    NeededNumber(u32, u32),
    /// `--NAME`.
    Flag,
    /// `--NAME VALUE`.
    Text(&'static str),
    /// The same, as often as one likes.
    Texts(&'static str),
    /// `--NAME VALUE`; where it is not given, the second text.
    TextOr(&'static str, &'static str),
    /// `--NAME N`, a number from the first to the second.
    Number(&'static str, u32, u32),
    /// The same; where it is not given, the second text.
    NumberOr(&'static str, u32, u32, &'static str),
}

/// A subcommand of the program.
pub(crate) struct Subcommand {
    pub name: &'static str,
    /// What help says of it in a line.
    pub about: &'static str,
    /// Its arguments, in the order in which words stand and help lists them.
    pub arguments: &'static [Argument],
    /// What its help says below its arguments.
    pub below: &'static str,
}

/// A table of arguments: a line has the name, the kind with what belongs to it, and what help says.
macro_rules! arguments {
    ($($name:literal $kind:ident$(($($part:literal),*))?: $help:literal;)*) => {
        [$(Argument {
            name: $name,
            kind: ArgumentKind::$kind$(($($part),*))?,
            help: $help,
        }),*]
    };
}

pub(crate) use arguments;
