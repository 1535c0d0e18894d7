//! The lines of findings and of rules.
ghost use Rattle.std.specs.Prelude.{◌≡◌, IfOk};
ghost use Rattle.std.specs.List.{flat_map};
ghost use Rattle.std.specs.String.{string_bytes};
ghost use Rattle.scenario_words.specs.Words.{ended_line};
ghost use Rattle.command_lint.specs.Lines.{broken_words, count_line, count_text, line_in, line_with, placed_line};
ghost use Rattle.command_lint.specs.Lines.{rule_line, rule_words, unknown_line};

use crate::form::LintForm;
use crate::objects::{count_object, finding_object};
use server_lint::{Finding, Rule, Transmission, finding_text};
use std::alloc::{AllocError, Global};

/// A line, with its line feed.
fn ended_line(alloc: Global, line: &str) -> Result<String, AllocError>
    ensures { IfOk result (λ text. string_bytes text ≡ ended_line line.now) }
{
    format!(in alloc; "{line}\n")
}

/// The line of words about a step of a device.
fn placed_line(
    alloc: Global,
    device: u16,
    step: u32,
    second: u32,
    words: &str,
) -> Result<String, AllocError>
    ensures { IfOk result (λ text. string_bytes text ≡ placed_line device step second words.now) }
{
    format!(in alloc; "device {device} step {step} second {second}: {words}\n")
}

/// What is said of a rule that is broken.
fn broken_words(
    alloc: Global,
    name: &str,
    words: &str,
    standard: &str,
    section: &str,
) -> Result<String, AllocError>
    ensures { IfOk result (λ text. string_bytes text ≡ broken_words name.now words.now standard.now section.now) }
{
    format!(in alloc; "{name}: {words} ({standard} section {section})")
}

/// The line of a rule that a datagram breaks, with what is said of it.
fn line_with(
    alloc: Global,
    form: LintForm,
    device: u16,
    rule: Rule,
    t: &Transmission,
    words: &str,
) -> Result<String, AllocError>
    ensures { IfOk result (λ text. string_bytes text ≡ line_with form device rule t.now words.now) }
{
    match form {
        LintForm::Text | LintForm::Reasons => {
            let said = broken_words(alloc, rule.name(), words, rule.standard(), rule.section())?;
            placed_line(alloc, device, t.step(), t.second(), said.as_str())
        }
        LintForm::JsonLines => finding_object(alloc, device, rule, t, words),
    }
}

/// The line of a finding in a history that ends in this second.
pub(crate) fn line_in(
    alloc: Global,
    form: LintForm,
    device: u16,
    history: &[Transmission],
    end: u32,
    finding: Finding,
) -> Result<String, AllocError>
    ensures { IfOk result (λ text. string_bytes text ≡ line_in form device history.now end finding) }
{
    match history.get(finding.place) {
        None => Ok(String::new(alloc)),
        Some(t) => {
            let before = &history[..finding.place];
            let after = &history[finding.place + 1..];
            let words = finding_text(alloc, finding.rule, before, t, after, end)?;
            line_with(alloc, form, device, finding.rule, t, words.as_str())
        }
    }
}

/// The line that counts findings, as text.
fn count_text(alloc: Global, count: usize) -> Result<String, AllocError>
    ensures { IfOk result (λ text. string_bytes text ≡ count_text count) }
{
    let words = format!(in alloc; "{count} findings")?;
    ended_line(alloc, words.as_str())
}

/// The line that counts findings.
pub(crate) fn count_line(alloc: Global, form: LintForm, count: usize) -> Result<String, AllocError>
    ensures { IfOk result (λ text. string_bytes text ≡ count_line form count) }
{
    match form {
        LintForm::Text | LintForm::Reasons => count_text(alloc, count),
        LintForm::JsonLines => count_object(alloc, count),
    }
}

/// The line of a word that is the name of no rule.
pub(crate) fn unknown_line(alloc: Global, word: &str) -> Result<String, AllocError>
    ensures { IfOk result (λ text. string_bytes text ≡ unknown_line word.now) }
{
    let words = format!(in alloc; "no such rule: {word}")?;
    ended_line(alloc, words.as_str())
}

/// What is told of a rule.
fn rule_words(
    alloc: Global,
    name: &str,
    standard: &str,
    section: &str,
    summary: &str,
) -> Result<String, AllocError>
    ensures { IfOk result (λ text. string_bytes text
        ≡ rule_words name.now standard.now section.now summary.now) }
{
    format!(in alloc; "{name} ({standard} section {section}): a server {summary}")
}

fn rule_line(alloc: Global, rule: Rule) -> Result<String, AllocError>
    ensures { IfOk result (λ text. string_bytes text ≡ rule_line rule) }
{
    let words = rule_words(
        alloc,
        rule.name(),
        rule.standard(),
        rule.section(),
        rule.summary(),
    )?;
    ended_line(alloc, words.as_str())
}

/// The lines of these rules.
pub(crate) fn rule_lines(alloc: Global, rules: &[Rule]) -> Result<String, AllocError>
    ensures { IfOk result (λ text. string_bytes text ≡ flat_map rule_line rules.now) }
{
    let mut text = String::new(alloc);
    for rule in rules {
        let line = rule_line(alloc, *rule)?;
        text.push_str(line.as_str())?;
    }
    Ok(text)
}
