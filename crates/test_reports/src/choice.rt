//! The cases that are asked for, by their titles.
ghost use Rattle.std.specs.Prelude.{◌≡◌, ◌++◌, map, option_map, IfOk, OnOk};
ghost use Rattle.test_reports.specs.Choice.{AreChosen, case_of_file, choice_in, is_chosen};

use crate::case_file::CaseFile;
use crate::test_case::TestCase;
use std::alloc::{AllocError, Global};

/// A case that is asked for, and the file that it stands in.
#[derive(Drop)]
pub struct ChosenCase<'a, C> {
    /// The number of the file, counted from 0.
    pub file: usize,
    /// The path of the file.
    pub path: &'a str,
    /// What the file has.
    pub text: &'a str,
    /// The case.
    pub case: &'a C,
}

/// Whether the title of a case begins with these words, if there are any.
fn is_chosen<C: TestCase>(only: Option<&str>, case: &C) -> bool
    ensures { result ≡ is_chosen C.title_of (option_map (λ w. w.now) only.entry) case.now }
{
    match only {
        None => true,
        Some(words) => case.title().as_bytes().starts_with(words.as_bytes()),
    }
}

/// Adds the cases of a file whose titles begin so.
fn put_chosen<'a, C: TestCase>(
    all: &mut Vec<ChosenCase<'a, C>>,
    only: Option<&str>,
    number: usize,
    file: &'a CaseFile<'_, C>,
) -> Result<(), AllocError>
    ensures { OnOk result (map case_of_file all.new.items ≡ map case_of_file all.old.items
        ++ choice_in C.title_of (option_map (λ w. w.now) only.entry) number file.now) }
{
    for case in file.cases.as_slice() {
        if is_chosen(only, case) {
            all.push(ChosenCase {
                file: number,
                path: file.path,
                text: file.text.as_str(),
                case,
            })?;
        }
    }
    Ok(())
}

/// The cases of these files whose titles begin with these words, if there are any, in their order.
pub fn chosen_cases<'a, C: TestCase>(
    alloc: Global,
    only: Option<&str>,
    files: &'a [CaseFile<'_, C>],
) -> Result<Vec<ChosenCase<'a, C>>, AllocError>
    ensures { IfOk result (λ v. AreChosen C.title_of (option_map (λ w. w.now) only.entry) files.now v.items) }
{
    let mut all = Vec::new(alloc);
    for (number, file) in files.iter().enumerate() {
        put_chosen(&mut all, only, number, file)?;
    }
    Ok(all)
}
