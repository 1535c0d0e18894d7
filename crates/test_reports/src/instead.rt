ghost use Rattle.std.specs.Prelude.{◌≡◌};

use lwm2m_values::Text;
use scenario_words::Cause;
use std::marker::Model;

/// An answer that came.
#[derive(Drop)]
pub struct CameAnswer {
    /// Its words.
    pub words: Text,
    /// What the datagram says that it is, if it is one.
    pub says: Option<Text>,
}

/// Answers that came, in their order. Contracts see the list of them.
#[derive(Drop)]
pub struct CameAnswers {
    items: Vec<CameAnswer>,
}

impl Model for CameAnswers {
    ghost use Rattle.std.specs.Prelude.{List};
    ghost use Rattle.test_reports.specs.declared.instead.CameAnswer.{CameAnswer};

    ghost Value = { List CameAnswer };

    ghost view = { λ a. a.items.items };
}

impl CameAnswers {
    /// The answers of a vector, which keeps its memory.
    pub fn from_vec(items: Vec<CameAnswer>) -> CameAnswers
        ensures { result ≡ items.items }
    {
        CameAnswers { items }
    }

    /// The answers.
    pub fn as_slice(&self) -> &[CameAnswer]
        ensures { result.now ≡ self.now }
    {
        self.items.as_slice()
    }
}

/// What is told of a case that differs, beside its line.
#[derive(Drop)]
pub enum Instead {
    /// Nothing.
    Nothing,
    /// What came.
    Came {
        /// What the datagram says that the line states, if it states one.
        sent: Option<Text>,
        /// The answers.
        answers: CameAnswers,
    },
    /// The text of the case is refused.
    Refused {
        /// In this line, counted from 1 below its title.
        line: usize,
        /// Why.
        cause: Cause,
    },
}
