use crate::file_case::FileCase;
use crate::scenario_case::ScenarioCase;
use lwm2m_values::Text;

/// A case: a title, and what stands below it.
#[derive(Drop)]
pub enum Case {
    /// A scenario, with what its devices have to output and to hold.
    Scenario(ScenarioCase),
    /// A file, with what is to be found in it.
    File(FileCase),
}

impl Case {
    ghost use Rattle.std.specs.Prelude.{◌≡◌};
    ghost use Rattle.case_text.specs.Checks.{line_of_case, title_of_case};

    /// The title.
    pub fn title(&self) -> &Text
        ensures { result.now ≡ title_of_case self.now }
    {
        match self {
            Case::Scenario(case) => &case.title,
            Case::File(case) => &case.title,
        }
    }

    /// The line of the title, counted in the file from 1.
    pub fn line(&self) -> usize
        ensures { result ≡ line_of_case self.now }
    {
        match self {
            Case::Scenario(case) => case.line,
            Case::File(case) => case.line,
        }
    }
}
