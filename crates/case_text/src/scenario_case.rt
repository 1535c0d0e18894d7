use crate::item::Items;
use crate::numbers::LineNumbers;
use lwm2m_values::Text;

/// A case of a scenario.
#[derive(Drop)]
pub struct ScenarioCase {
    /// The title.
    pub title: Text,
    /// The line of the title, counted in the file from 1.
    pub line: usize,
    /// What the assembler gets: the lines of the scenario's text, each ended by LF, and an empty line for each other
    /// line below the title.
    pub text: Text,
    /// For each line of that text its number in the case, counted from 1 below the title.
    pub numbers: LineNumbers,
    /// The start, and each line that has words and states no answer, with the answers below it.
    pub items: Items,
}
