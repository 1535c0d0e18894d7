//! The jobs that the words ask for, one by one.
ghost use Rattle.std.specs.Prelude.{◌≡◌, ◌≢◌, ◌⊎◌, [], None, Some, codes, map, true, unwrap_or, IfNone, IfOk, IfSome};
ghost use Rattle.clap.specs.Words.{all_of, first_of, found_of, rows_of};
ghost use Rattle.command_line.specs.declared.words.Job.{Job as JobData};
ghost use Rattle.command_line.specs.Words.{AsksFor, AsksForCaseForm, AsksForEntries, AsksForForm, is_set};
ghost use Rattle.command_line.specs.Inside.{ExcludesInTest, LacksJoin, LacksLint, LacksOne, LacksPlay, LacksRun};
ghost use Rattle.command_line.specs.Inside.{IsNoPlainName, LacksShow, LacksTest, TakesNoList};
ghost use Rattle.command_line.specs.Inside.{WantsTwoCaseForms, WantsTwoForms};

use crate::values::{flag, number, small_number, value_of, values_if, values_of};
use crate::words::{CaseForm, EntriesForm, Job, TraceForm};
use clap::ArgMatches;
use std::alloc::{AllocError, Global};

#[tactic(auto, using(crate::proofs::Asking::no_spell, crate::proofs::Asking::no_test, crate::proofs::Asking::no_join, crate::proofs::Asking::no_lint))]
pub(crate) fn job_in<'a>(
    alloc: Global,
    name: &str,
    found: &ArgMatches<'a>,
) -> Result<Option<Job<'a>>, AllocError>
    requires { name.now ≢ codes "say" }
    ensures some { IfOk result (λ o. IfSome o (AsksFor (name.now, rows_of (found_of found.now)))) }
    ensures none { IfOk result (λ o. IfNone o ((job : JobData) → AsksFor (name.now, rows_of (found_of found.now)) job
        → ⊥)) }
{
    match name {
        "spell" => spell_job(alloc, found),
        "test" => test_job(alloc, found),
        "join" => join_job(alloc, found),
        "lint" => lint_job(alloc, found),
        _ => Ok(plain_job(name, found)),
    }
}

/// A job without a list.
#[tactic(auto, using(crate::proofs::Asking::no_one, crate::proofs::Asking::no_play, crate::proofs::Asking::no_asm, crate::proofs::Asking::no_dis, crate::proofs::Asking::no_run))]
fn plain_job<'a>(name: &str, found: &ArgMatches<'a>) -> Option<Job<'a>>
    requires { TakesNoList name.now }
    ensures some { IfSome result (AsksFor (name.now, rows_of (found_of found.now))) }
    ensures none { IfNone result ((job : JobData) → AsksFor (name.now, rows_of (found_of found.now)) job → ⊥) }
{
    match name {
        "one" => one_job(found),
        "play" => play_job(found),
        "asm" => asm_job(found),
        "dis" => dis_job(found),
        "run" => run_job(found),
        _ => trace_job(name, found),
    }
}

/// A job on the trace of a run.
#[tactic(auto, using(crate::proofs::Asking::no_check, crate::proofs::Asking::no_show, crate::proofs::Asking::no_pcap, crate::proofs::Asking::no_debug, crate::proofs::Asking::no_other))]
fn trace_job<'a>(name: &str, found: &ArgMatches<'a>) -> Option<Job<'a>>
    requires plain { TakesNoList name.now }
    requires traced { IsNoPlainName name.now }
    ensures some { IfSome result (AsksFor (name.now, rows_of (found_of found.now))) }
    ensures none { IfNone result ((job : JobData) → AsksFor (name.now, rows_of (found_of found.now)) job → ⊥) }
{
    match name {
        "check" => check_job(found),
        "show" => show_job(found),
        "pcap" => pcap_job(found),
        "debug" => debug_job(found),
        _ => None,
    }
}

fn one_job<'a>(found: &ArgMatches<'a>) -> Option<Job<'a>>
    ensures some { IfSome result (AsksFor (codes "one", rows_of (found_of found.now))) }
    ensures none { IfNone result (LacksOne (rows_of (found_of found.now))) }
{
    let hex = value_of(found, "HEX")?;
    let form = form_of(found)?;
    Some(Job::One { hex, form })
}

fn spell_job<'a>(alloc: Global, found: &ArgMatches<'a>) -> Result<Option<Job<'a>>, AllocError>
    ensures some { IfOk result (λ o. IfSome o (AsksFor (codes "spell", rows_of (found_of found.now)))) }
    ensures none { IfOk result (λ o. IfNone o (all_of (codes "STATEMENT") (rows_of (found_of found.now)) ≡ None)) }
{
    match values_of(alloc, found, "STATEMENT")? {
        Some(statement) => Ok(Some(Job::Spell { statement })),
        None => Ok(None),
    }
}

fn play_job<'a>(found: &ArgMatches<'a>) -> Option<Job<'a>>
    ensures some { IfSome result (AsksFor (codes "play", rows_of (found_of found.now))) }
    ensures none { IfNone result (LacksPlay (rows_of (found_of found.now))) }
{
    Some(Job::Play {
        file: value_of(found, "FILE")?,
        device: small_number(found, "device"),
        from: number(found, "from"),
        to: number(found, "to"),
        form: entries_form(found),
    })
}

fn asm_job<'a>(found: &ArgMatches<'a>) -> Option<Job<'a>>
    ensures some { IfSome result (AsksFor (codes "asm", rows_of (found_of found.now))) }
    ensures none { IfNone result ((first_of (codes "IN") (rows_of (found_of found.now)) ≡ None)
        ⊎ (first_of (codes "OUT") (rows_of (found_of found.now)) ≡ None)) }
{
    Some(Job::Asm {
        input: value_of(found, "IN")?,
        output: value_of(found, "OUT")?,
    })
}

fn dis_job<'a>(found: &ArgMatches<'a>) -> Option<Job<'a>>
    ensures some { IfSome result (AsksFor (codes "dis", rows_of (found_of found.now))) }
    ensures none { IfNone result (first_of (codes "IN") (rows_of (found_of found.now)) ≡ None) }
{
    Some(Job::Dis {
        input: value_of(found, "IN")?,
    })
}

fn run_job<'a>(found: &ArgMatches<'a>) -> Option<Job<'a>>
    ensures some { IfSome result (AsksFor (codes "run", rows_of (found_of found.now))) }
    ensures none { IfNone result (LacksRun (rows_of (found_of found.now))) }
{
    Some(Job::Run {
        image: value_of(found, "IMAGE")?,
        workers: small_number(found, "workers")?,
        batch: number(found, "batch")?,
        trace: value_of(found, "trace"),
    })
}

fn check_job<'a>(found: &ArgMatches<'a>) -> Option<Job<'a>>
    ensures some { IfSome result (AsksFor (codes "check", rows_of (found_of found.now))) }
    ensures none { IfNone result ((first_of (codes "IMAGE") (rows_of (found_of found.now)) ≡ None)
        ⊎ (first_of (codes "TRACE") (rows_of (found_of found.now)) ≡ None)) }
{
    Some(Job::Check {
        image: value_of(found, "IMAGE")?,
        trace: value_of(found, "TRACE")?,
        json: flag(found, "json"),
    })
}

fn show_job<'a>(found: &ArgMatches<'a>) -> Option<Job<'a>>
    ensures some { IfSome result (AsksFor (codes "show", rows_of (found_of found.now))) }
    ensures none { IfNone result (LacksShow (rows_of (found_of found.now))) }
{
    Some(Job::Show {
        image: value_of(found, "IMAGE")?,
        trace: value_of(found, "TRACE")?,
        device: small_number(found, "device"),
        from: number(found, "from"),
        to: number(found, "to"),
        form: entries_form(found),
    })
}

/// In which form the words of `show` and `play` ask for entries.
fn entries_form(found: &ArgMatches) -> EntriesForm
    ensures { AsksForEntries (rows_of (found_of found.now)) result }
{
    match (flag(found, "json"), flag(found, "why")) {
        (false, false) => EntriesForm::Text,
        (false, true) => EntriesForm::Reasons,
        (true, false) => EntriesForm::JsonLines,
        (true, true) => EntriesForm::ReasonedLines,
    }
}

/// In which form the words of `one` and `lint` ask for an answer; none where they ask for two.
fn form_of(found: &ArgMatches) -> Option<TraceForm>
    ensures some { IfSome result (AsksForForm (rows_of (found_of found.now))) }
    ensures none { IfNone result (WantsTwoForms (rows_of (found_of found.now))) }
{
    match (flag(found, "json"), flag(found, "why")) {
        (false, false) => Some(TraceForm::Text),
        (false, true) => Some(TraceForm::Reasons),
        (true, false) => Some(TraceForm::JsonLines),
        (true, true) => None,
    }
}

fn pcap_job<'a>(found: &ArgMatches<'a>) -> Option<Job<'a>>
    ensures some { IfSome result (AsksFor (codes "pcap", rows_of (found_of found.now))) }
    ensures none { IfNone result ((first_of (codes "IMAGE") (rows_of (found_of found.now)) ≡ None)
        ⊎ ((first_of (codes "TRACE") (rows_of (found_of found.now)) ≡ None)
        ⊎ (first_of (codes "OUT") (rows_of (found_of found.now)) ≡ None))) }
{
    Some(Job::Pcap {
        image: value_of(found, "IMAGE")?,
        trace: value_of(found, "TRACE")?,
        output: value_of(found, "OUT")?,
    })
}

fn debug_job<'a>(found: &ArgMatches<'a>) -> Option<Job<'a>>
    ensures some { IfSome result (AsksFor (codes "debug", rows_of (found_of found.now))) }
    ensures none { IfNone result ((first_of (codes "IMAGE") (rows_of (found_of found.now)) ≡ None)
        ⊎ (first_of (codes "TRACE") (rows_of (found_of found.now)) ≡ None)) }
{
    Some(Job::Debug {
        image: value_of(found, "IMAGE")?,
        trace: value_of(found, "TRACE")?,
        reasons: flag(found, "why"),
    })
}

fn test_job<'a>(alloc: Global, found: &ArgMatches<'a>) -> Result<Option<Job<'a>>, AllocError>
    ensures some { IfOk result (λ o. IfSome o (AsksFor (codes "test", rows_of (found_of found.now)))) }
    ensures none { IfOk result (λ o. IfNone o (LacksTest (rows_of (found_of found.now)))) }
{
    match values_of(alloc, found, "FILE")? {
        Some(files) => Ok(cases_job(found, files)),
        None => Ok(None),
    }
}

fn join_job<'a>(alloc: Global, found: &ArgMatches<'a>) -> Result<Option<Job<'a>>, AllocError>
    ensures some { IfOk result (λ o. IfSome o (AsksFor (codes "join", rows_of (found_of found.now)))) }
    ensures none { IfOk result (λ o. IfNone o (LacksJoin (rows_of (found_of found.now)))) }
{
    let Some(output) = value_of(found, "OUT") else {
        return Ok(None);
    };
    match values_of(alloc, found, "IMAGE")? {
        Some(images) => Ok(Some(Job::Join { output, images })),
        None => Ok(None),
    }
}

fn lint_job<'a>(alloc: Global, found: &ArgMatches<'a>) -> Result<Option<Job<'a>>, AllocError>
    ensures some { IfOk result (λ o. IfSome o (AsksFor (codes "lint", rows_of (found_of found.now)))) }
    ensures none { IfOk result (λ o. IfNone o (LacksLint (rows_of (found_of found.now)))) }
{
    let only = values_if(alloc, found, "only")?;
    let except = values_if(alloc, found, "not")?;
    Ok(rules_job(found, only, except))
}

/// What is asked of the rules with these names, without those with the others: whether they are broken, or what they
/// are.
fn rules_job<'a>(
    found: &ArgMatches<'a>,
    only: Vec<&'a str>,
    except: Vec<&'a str>,
) -> Option<Job<'a>>
    requires only { unwrap_or (all_of (codes "only") (rows_of (found_of found.now))) [] ≡ map (λ w. w.now) only.items }
    requires except { unwrap_or (all_of (codes "not") (rows_of (found_of found.now))) []
        ≡ map (λ w. w.now) except.items }
    ensures some { IfSome result (AsksFor (codes "lint", rows_of (found_of found.now))) }
    ensures none { IfNone result (LacksLint (rows_of (found_of found.now))) }
{
    let file = value_of(found, "FILE");
    let form = form_of(found)?;
    match (file, flag(found, "rules"), form) {
        (Some(_), false, _) | (None, true, TraceForm::Text) => Some(Job::Lint {
            file,
            only,
            except,
            form,
        }),
        _ => None,
    }
}

/// What is asked of these files: the titles of their cases, or what comes of them.
fn cases_job<'a>(found: &ArgMatches<'a>, files: Vec<&'a str>) -> Option<Job<'a>>
    requires { all_of (codes "FILE") (rows_of (found_of found.now)) ≡ Some (map (λ p. p.now) files.items) }
    ensures some { IfSome result (AsksFor (codes "test", rows_of (found_of found.now))) }
    ensures none { IfNone result (ExcludesInTest (rows_of (found_of found.now))) }
{
    let form = case_form_of(found)?;
    if flag(found, "list") {
        return titles_job(found, files, form);
    }
    match (value_of(found, "on"), small_number(found, "device")) {
        (None, None) => Some(Job::Test {
            files,
            only: value_of(found, "only"),
            form,
            junit: value_of(found, "junit"),
        }),
        (None, Some(_)) => None,
        (Some(image), device) => Some(Job::Expect {
            files,
            image,
            device,
            only: value_of(found, "only"),
            form,
            junit: value_of(found, "junit"),
        }),
    }
}

/// The titles of these files of cases, which go with nothing that wants cases to be played or looked at.
fn titles_job<'a>(found: &ArgMatches<'a>, files: Vec<&'a str>, form: CaseForm) -> Option<Job<'a>>
    requires files { all_of (codes "FILE") (rows_of (found_of found.now)) ≡ Some (map (λ p. p.now) files.items) }
    requires form { AsksForCaseForm (rows_of (found_of found.now)) form }
    requires listed { is_set (codes "list") (rows_of (found_of found.now)) ≡ true }
    ensures some { IfSome result (AsksFor (codes "test", rows_of (found_of found.now))) }
    ensures none { IfNone result (ExcludesInTest (rows_of (found_of found.now))) }
{
    let only = value_of(found, "only");
    let device = small_number(found, "device");
    match (form, value_of(found, "junit"), value_of(found, "on")) {
        (CaseForm::Text, None, None) => match device {
            None => Some(Job::Titles { files, only }),
            Some(_) => None,
        },
        _ => None,
    }
}

/// In which form the words of `test` ask for what came of cases; none where they ask for two.
fn case_form_of(found: &ArgMatches) -> Option<CaseForm>
    ensures some { IfSome result (AsksForCaseForm (rows_of (found_of found.now))) }
    ensures none { IfNone result (WantsTwoCaseForms (rows_of (found_of found.now))) }
{
    match (flag(found, "tap"), flag(found, "json")) {
        (false, false) => Some(CaseForm::Text),
        (true, false) => Some(CaseForm::Tap),
        (false, true) => Some(CaseForm::JsonLines),
        (true, true) => None,
    }
}
