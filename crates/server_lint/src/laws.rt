//! What follows from the definitions, for their readers. The calls do nothing; their contracts are the laws.
ghost use Rattle.server_lint.specs.Laws.{AllAreFindings, AllFindingsAreThere};

/// What is found in a history is a finding.
pub fn all_are_findings()
    ensures { AllAreFindings }
{}

/// Each finding is found.
pub fn all_findings_are_there()
    ensures { AllFindingsAreThere }
{}
