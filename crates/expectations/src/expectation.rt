ghost use Rattle.std.specs.Prelude.{◌≡◌};

use crate::what::What;
use lwm2m_values::Text;
use std::marker::Model;

/// What a line says that has to arrive at a device, or that nothing does.
#[derive(Drop)]
pub enum Expected {
    /// `<= S WHAT [within N]`: this server has to send this.
    Message {
        /// The Short Server ID, from 1 to 65534.
        server: u16,
        /// What it has to send.
        what: What,
        /// At most how many seconds after what the line before it stands for, from 1 to 4294967295, if that is said.
        within: Option<u32>,
    },
    /// `<= none within N`: nothing arrives from any server.
    Silence {
        /// Before this many seconds have passed since then, from 1 to 4294967295.
        seconds: u32,
    },
}

/// A line that begins with `<=`.
#[derive(Drop)]
pub struct Expectation {
    /// The line, counted in the file from 1.
    pub line: usize,
    /// What it says.
    pub expected: Expected,
}

/// Expectations, in the order of their lines. Contracts see the list of them.
#[derive(Drop)]
pub struct Expectations {
    items: Vec<Expectation>,
}

impl Model for Expectations {
    ghost use Rattle.std.specs.Prelude.{List};
    ghost use Rattle.expectations.specs.declared.expectation.Expectation.{Expectation};

    ghost Value = { List Expectation };

    ghost view = { λ e. e.items.items };
}

impl Expectations {
    /// The expectations of a vector, which keeps its memory.
    pub fn from_vec(items: Vec<Expectation>) -> Expectations
        ensures { result ≡ items.items }
    {
        Expectations { items }
    }

    /// The expectations.
    pub fn as_slice(&self) -> &[Expectation]
        ensures { result.now ≡ self.now }
    {
        self.items.as_slice()
    }
}

/// A case of a file of expectations.
#[derive(Drop)]
pub struct ExpectedCase {
    /// The title.
    pub title: Text,
    /// The line of the title, counted in the file from 1.
    pub line: usize,
    /// The lines below it that begin with `<=`; there is one.
    pub lines: Expectations,
}
