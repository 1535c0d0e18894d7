//! The forms that the words ask for.
ghost use Rattle.std.specs.Prelude.{◌≡◌};
ghost use Rattle.lwbench.specs.Command.{are_json, form_of, is_case_json, is_json, job_wants_json, lint_form};
ghost use Rattle.lwbench.specs.Command.{play_form, report_form, wants_json};

use command_line::{Asked, CaseForm, EntriesForm, Job, TraceForm as AskedForm};
use command_lint::LintForm;
use command_play::PlayForm;
use command_traces::TraceForm;
use test_reports::ReportForm;

/// Whether entries are asked for in JSON.
pub(crate) fn are_json(form: EntriesForm) -> bool
    ensures { result ≡ are_json form }
{
    match form {
        EntriesForm::Text | EntriesForm::Reasons => false,
        EntriesForm::JsonLines | EntriesForm::ReasonedLines => true,
    }
}

/// Whether outputs, or what servers did wrong, are asked for in JSON.
pub(crate) fn is_json(form: AskedForm) -> bool
    ensures { result ≡ is_json form }
{
    match form {
        AskedForm::Text | AskedForm::Reasons => false,
        AskedForm::JsonLines => true,
    }
}

/// Whether it is asked for in JSON what came of cases.
pub(crate) fn is_case_json(form: CaseForm) -> bool
    ensures { result ≡ is_case_json form }
{
    match form {
        CaseForm::Text | CaseForm::Tap => false,
        CaseForm::JsonLines => true,
    }
}

/// Whether a job asks for JSON.
pub(crate) fn job_wants_json(job: &Job) -> bool
    ensures { result ≡ job_wants_json job.now }
{
    match job {
        Job::One { form, .. } | Job::Lint { form, .. } => is_json(*form),
        Job::Play { form, .. } | Job::Show { form, .. } => are_json(*form),
        Job::Check { json, .. } => *json,
        Job::Test { form, .. } | Job::Expect { form, .. } => is_case_json(*form),
        Job::Say { .. }
        | Job::Spell { .. }
        | Job::Asm { .. }
        | Job::Dis { .. }
        | Job::Run { .. }
        | Job::Pcap { .. }
        | Job::Debug { .. }
        | Job::Titles { .. }
        | Job::Join { .. } => false,
    }
}

/// Whether the words ask for JSON.
pub(crate) fn wants_json(asked: &Asked) -> bool
    ensures { result ≡ wants_json asked.now }
{
    match asked {
        Asked::Job(job) => job_wants_json(job),
        Asked::Fleet(fleet) => fleet.json,
        Asked::Live(_) | Asked::Log { .. } | Asked::Text { .. } => false,
    }
}

/// The form of the entries of a run that is asked for.
pub(crate) fn play_form(form: EntriesForm) -> PlayForm
    ensures { result ≡ play_form form }
{
    match form {
        EntriesForm::Text => PlayForm::Text,
        EntriesForm::Reasons => PlayForm::Reasons,
        EntriesForm::JsonLines => PlayForm::JsonLines,
        EntriesForm::ReasonedLines => PlayForm::ReasonedLines,
    }
}

/// The form of what came of cases that is asked for.
pub(crate) fn report_form(form: CaseForm) -> ReportForm
    ensures { result ≡ report_form form }
{
    match form {
        CaseForm::Text => ReportForm::Text,
        CaseForm::Tap => ReportForm::Tap,
        CaseForm::JsonLines => ReportForm::JsonLines,
    }
}

/// The form of a trace that is asked for.
pub(crate) fn form_of(form: EntriesForm) -> TraceForm
    ensures { result ≡ form_of form }
{
    match form {
        EntriesForm::Text => TraceForm::Text,
        EntriesForm::Reasons => TraceForm::Reasons,
        EntriesForm::JsonLines => TraceForm::JsonLines,
        EntriesForm::ReasonedLines => TraceForm::ReasonedLines,
    }
}

/// The form of what is found that is asked for.
pub(crate) fn lint_form(form: AskedForm) -> LintForm
    ensures { result ≡ lint_form form }
{
    match form {
        AskedForm::Text => LintForm::Text,
        AskedForm::Reasons => LintForm::Reasons,
        AskedForm::JsonLines => LintForm::JsonLines,
    }
}
