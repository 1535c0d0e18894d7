//! Files of cases, which are all read before a case is judged.
ghost use Rattle.std.specs.Prelude.{◌≡◌, ◌∷◌, ◌++◌, [], Ok, Some, IfErr, IfOk, OnOk, map, option_map};
ghost use Rattle.test_reports.specs.Reading.{AreRead, IsCaseFile, IsCasesFault, IsFileRefused, IsRefusalOf};

use crate::case_file::CaseFile;
use crate::test_case::TestCase;
use command_files::files::Files;
use command_files::{Fault, Refusal, Why, read_text};
use std::alloc::{AllocError, Global};

/// The cases of a text. A fault names the path of its file.
#[tactic(auto, using(crate::proofs::Faults::wrong_cases))]
fn cases_of<'a, C: TestCase>(
    alloc: Global,
    path: &'a str,
    text: &str,
) -> Result<Vec<C>, Refusal<'a>>
    ensures found { IfOk result (λ v. C.cases_in text.now ≡ Ok v.items) }
    ensures refused { IfErr result (λ r. IsCasesFault C.cases_in text.now r.fault) }
    ensures names_path { IfErr result (λ r. option_map (λ p. p.now) r.about ≡ Some path.entry.now) }
{
    match C::cases_of(alloc, text.as_bytes()) {
        Ok(cases) => Ok(cases),
        Err(fault) => Err(Refusal {
            fault: Fault::from(fault),
            about: Some(path),
            why: Why::Named,
        }),
    }
}

/// A file with its cases.
#[tactic(auto, using(crate::proofs::Faults::unread_text, crate::proofs::Faults::wrong, crate::proofs::Files::case_file))]
fn read_case_file<'a, F: Files, C: TestCase>(
    alloc: Global,
    path: &'a str,
    files: &F,
) -> Result<CaseFile<'a, C>, Refusal<'a>>
    ensures path { IfOk result (λ file. file.path.now ≡ path.entry.now) }
    ensures found { IfOk result (IsCaseFile C.cases_in (F.holds files.now)) }
    ensures refused { IfErr result (λ r. IsFileRefused C.cases_in (F.holds files.now) (F.fails files.now)
        path.entry.now r.fault) }
    ensures names_path { IfErr result (λ r. option_map (λ p. p.now) r.about ≡ Some path.entry.now) }
{
    let text = read_text(alloc, path, files)?;
    let cases = cases_of(alloc, path, text.as_str())?;
    Ok(CaseFile { path, text, cases })
}

fn add<'a, C: Drop>(all: &mut Vec<CaseFile<'a, C>>, file: CaseFile<'a, C>) -> Result<(), AllocError>
    ensures { OnOk result (all.new.items ≡ all.old.items ++ file.entry ∷ []) }
{
    all.push(file)?;
    Ok(())
}

/// The files at these paths, each with its cases; or the first that is refused, by its path.
#[tactic(auto, using(crate::proofs::Files::none_yet, crate::proofs::Files::all_read))]
pub fn read_files<'a, F: Files, C: TestCase>(
    alloc: Global,
    paths: &[&'a str],
    files: &F,
) -> Result<Vec<CaseFile<'a, C>>, Refusal<'a>>
    ensures read { IfOk result (λ v. AreRead C.cases_in (F.holds files.now) (map (λ p. p.now) paths.now) v.items) }
    ensures refused { IfErr result (λ r. IsRefusalOf C.cases_in (F.holds files.now) (F.fails files.now)
        (map (λ p. p.now) paths.now) (option_map (λ p. p.now) r.about) r.fault) }
{
    let mut all = Vec::new(alloc);
    for path in paths {
        let file = read_case_file(alloc, *path, files)?;
        add(&mut all, file)?;
    }
    Ok(all)
}
