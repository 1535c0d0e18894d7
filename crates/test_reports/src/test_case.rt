use case_text::{Case, CaseFault, read_cases};
use expectations::{ExpectedCase, read_expectations};
use std::alloc::Global;

/// A case as files have it: one that is played, or what servers have to send.
pub trait TestCase: Drop {
    ghost use Rattle.std.specs.Prelude.{◌≡◌, ℕ, List, Result};
    ghost use Rattle.case_text.specs.declared.fault.CaseFault.{CaseFault};
    ghost use Rattle.case_text.specs.Cases.{Finds};

    /// The cases of a text, or its first fault.
    ghost cases_in: { List ℕ → Result (List Self) CaseFault };

    /// The title of a case.
    ghost title_of: { Self → List ℕ };

    /// The cases of a text, in their order, or its first fault.
    fn cases_of(alloc: Global, text: &[u8]) -> Result<Vec<Self>, CaseFault>
        ensures { Finds (λ v. v.items) result (cases_in text.now) };

    /// Its title.
    fn title(&self) -> &str
        ensures { result.now ≡ title_of self.now };
}

impl TestCase for Case {
    ghost use Rattle.case_text.specs.Cases.{cases_in};
    ghost use Rattle.case_text.specs.Checks.{title_of_case};

    ghost cases_in = { cases_in };

    ghost title_of = { title_of_case };

    fn cases_of(alloc: Global, text: &[u8]) -> Result<Vec<Case>, CaseFault> {
        read_cases(alloc, text)
    }

    fn title(&self) -> &str {
        Case::title(self).as_str()
    }
}

impl TestCase for ExpectedCase {
    ghost use Rattle.expectations.specs.ExpectedCases.{expected_cases_in};

    ghost cases_in = { expected_cases_in };

    ghost title_of = { λ case. case.title };

    fn cases_of(alloc: Global, text: &[u8]) -> Result<Vec<ExpectedCase>, CaseFault> {
        read_expectations(alloc, text)
    }

    fn title(&self) -> &str {
        self.title.as_str()
    }
}
