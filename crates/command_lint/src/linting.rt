//! What the program answers to `lint`. Nothing is written or printed here.
ghost use Rattle.std.specs.Prelude.{◌≡◌, ◌⊎◌, ◌++◌, IfErr, IfOk, Some, map, option_map};
ghost use Rattle.std.specs.String.{string_bytes};
ghost use Rattle.command_files.specs.declared.fault.Fault.TheVariants.{Memory};
ghost use Rattle.command_lint.specs.Lint.{AreRulesTold, IsFileLinted, IsLintDone, IsLintFault, IsLinted, IsUnread};
ghost use Rattle.command_lint.specs.Lint.{status_of};

use crate::choice::{chosen_rules, unknown_word};
use crate::form::LintForm;
use crate::lines::{count_line, rule_lines, unknown_line};
use crate::rows::{Findings, Found, find_all};
use command_files::files::Files;
use command_files::{Answer, Refusal, Status};
use command_sources::load_source;
use scenario_image::Scenario;
use server_lint::Rule;
use std::alloc::{AllocError, Global};

/// How the program ends that found this.
fn status_of(found: &[Found]) -> Status
    ensures { result ≡ status_of found.now }
{
    if found.is_empty() {
        Status::Done
    } else {
        Status::NotRun
    }
}

/// What is found in a scenario by these rules.
fn lint_scenario<'a>(
    alloc: Global,
    form: LintForm,
    chosen: &[Rule],
    scenario: &Scenario,
) -> Result<Answer<'a>, AllocError>
    ensures { IfOk result (IsLinted form chosen.now scenario.now) }
{
    let findings = find_all(alloc, form, chosen, scenario)?;
    let count = count_line(alloc, form, findings.items.len())?;
    let status = status_of(findings.items.as_slice());
    let mut text = findings.text;
    text.push_str(count.as_str())?;
    Ok(Answer::printed(status, text))
}

/// What breaks these rules in the rows of the scenario whose image or text the file is.
fn lint_file<'a, F: Files>(
    alloc: Global,
    path: &'a str,
    form: LintForm,
    chosen: &[Rule],
    files: &F,
) -> Result<Answer<'a>, Refusal<'a>>
    ensures done { IfOk result (IsFileLinted (F.holds files.now) path.entry.now form chosen.now) }
    ensures refused { IfErr result (λ r. (r.fault ≡ Memory)
        ⊎ IsUnread (F.holds files.now) (F.fails files.now) (Some path.entry.now) r.fault) }
{
    let scenario = load_source(alloc, path, files)?;
    Ok(lint_scenario(alloc, form, chosen, &scenario)?)
}

/// These rules, a line for each.
fn tell_rules<'a>(alloc: Global, rules: &[Rule]) -> Result<Answer<'a>, AllocError>
    ensures { IfOk result (AreRulesTold rules.now) }
{
    let text = rule_lines(alloc, rules)?;
    Ok(Answer::printed(Status::Done, text))
}

/// `lint FILE [--only RULE] .. [--not RULE] .. [--json] [--why]`: what servers did wrong in the rows of the scenario
/// whose image or text the file is: a line for each finding, and one that counts them, as text or as an object; with
/// `--why` below each datagram that a server sent the line why the device answered like that. The status is 3 where
/// there is a finding. `lint --rules` names no file: a line of text for each rule. The rules are those after
/// `--only`, or all if there are none, less those after `--not`. A word that is the name of no rule is told, with
/// status 2, and the file is not read.
#[tactic(auto, using(crate::proofs::Linted::unknown_rule, crate::proofs::Linted::told, crate::proofs::Linted::linted, crate::proofs::Linted::unread))]
pub fn lint<'a, F: Files>(
    alloc: Global,
    path: Option<&'a str>,
    form: LintForm,
    only: &[&'a str],
    excluded: &[&'a str],
    files: &F,
) -> Result<Answer<'a>, Refusal<'a>>
    ensures done { IfOk result (IsLintDone (F.holds files.now) (option_map (λ p. p.now) path.entry) form
        (map (λ w. w.now) only.now) (map (λ w. w.now) excluded.now)) }
    ensures refused { IfErr result (λ r. IsLintFault (F.holds files.now) (F.fails files.now)
        (option_map (λ p. p.now) path.entry) (map (λ w. w.now) only.now) (map (λ w. w.now) excluded.now) r.fault) }
{
    if let Some(word) = unknown_word(only, excluded) {
        let text = unknown_line(alloc, word)?;
        return Ok(Answer::printed(Status::Usage, text));
    }
    let chosen = chosen_rules(alloc, only, excluded)?;
    match path {
        None => Ok(tell_rules(alloc, chosen.as_slice())?),
        Some(path) => lint_file(alloc, path, form, chosen.as_slice(), files),
    }
}
