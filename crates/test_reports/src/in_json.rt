//! Reports of cases as JSON Lines.
ghost use Rattle.std.specs.Prelude.{◌≡◌, ◌++◌, map, IfOk, OnOk};
ghost use Rattle.std.specs.String.{string_bytes};
ghost use Rattle.trace_json.specs.Lines.{json_lines};
ghost use Rattle.trace_json.specs.Writing.{json_line};
ghost use Rattle.test_reports.specs.InJson.{case_json, json_report};

use crate::case_report::CaseReport;
use crate::objects::case_object;
use crate::report::count_differing;
use std::alloc::{AllocError, Global};
use trace_json::counts_line;

fn put_case(alloc: Global, out: &mut String, case: &CaseReport) -> Result<(), AllocError>
    ensures { OnOk result (string_bytes out.new ≡ string_bytes out.old ++ json_line (case_json case.now)) }
{
    let line = case_object(alloc, case)?;
    out.push_str(line.as_str())
}

/// Writes the lines of cases, in their order.
fn put_cases(alloc: Global, out: &mut String, all: &[CaseReport]) -> Result<(), AllocError>
    ensures { OnOk result (string_bytes out.new ≡ string_bytes out.old ++ json_lines (map case_json all.now)) }
{
    for case in all {
        put_case(alloc, out, case)?;
    }
    Ok(())
}

/// What is printed of cases as JSON Lines: an object for each, with what differs where it does, and one that counts
/// them.
pub(crate) fn json_report(alloc: Global, all: &[CaseReport]) -> Result<String, AllocError>
    ensures { IfOk result (λ text. string_bytes text ≡ json_report all.now) }
{
    let mut out = String::new(alloc);
    put_cases(alloc, &mut out, all)?;
    let counts = counts_line(alloc, all.len(), count_differing(all))?;
    out.push_str(counts.as_str())?;
    Ok(out)
}
