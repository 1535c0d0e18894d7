ghost use Rattle.std.specs.Prelude.{◌≡◌};

use crate::answer::Answers;
use crate::question::Question;
use device_machine::Event;
use octets::Bytes;
use std::marker::Model;

/// What a line of a case is that states no answer.
#[derive(Drop)]
pub enum Part {
    /// What stands before the first of the others.
    Start,
    /// A line of the text that begins a device.
    Device {
        /// How many times it stands in the text, from 1 to 100,000: `*N LINE`.
        times: u32,
    },
    /// A line of the text that is a step of a device.
    Step {
        /// How many times it stands in the text, from 1 to 100,000: `*N LINE`.
        times: u32,
    },
    /// Any other line of the text, also one that cannot be read.
    Line,
    /// `? QUESTION`: something that a device is asked.
    Ask {
        /// Whether the answer must not come (`=/>`).
        must_not: bool,
        /// The question, and the answer that is stated.
        question: Question,
    },
    /// `! LINE`: an event that a copy of the device takes.
    Aside(Event),
    /// `trace BYTES`: the trace file of a recorded run.
    Recorded(Bytes),
}

/// A line that states no answer, and the answers that are stated below it.
#[derive(Drop)]
pub struct Item {
    /// The line, counted in the file from 1; of `Part::Start` the title's.
    pub line: usize,
    /// What the line is.
    pub part: Part,
    /// The answers that stand between it and the next such line.
    pub answers: Answers,
}

/// Items, in the order of their lines. Contracts see the list of them.
#[derive(Drop)]
pub struct Items {
    items: Vec<Item>,
}

impl Model for Items {
    ghost use Rattle.std.specs.Prelude.{List};
    ghost use Rattle.case_text.specs.declared.item.Item.{Item};

    ghost Value = { List Item };

    ghost view = { λ i. i.items.items };
}

impl Items {
    /// The items of a vector, which keeps its memory.
    pub fn from_vec(items: Vec<Item>) -> Items
        ensures { result ≡ items.items }
    {
        Items { items }
    }

    /// The items.
    pub fn as_slice(&self) -> &[Item]
        ensures { result.now ≡ self.now }
    {
        self.items.as_slice()
    }
}
