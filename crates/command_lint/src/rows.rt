//! What is found in the rows of a scenario.
ghost use Rattle.std.specs.Prelude.{◌≡◌, ◌<◌, ◌++◌, List, [], ◌∷◌, IfOk, OnOk, length, map, slice_get};
ghost use Rattle.std.specs.Option.{option_copied};
ghost use Rattle.std.specs.String.{string_bytes};
ghost use Rattle.fleet_core.specs.Board.{ShowsAfter};
ghost use Rattle.server_lint.specs.Findings.{AreThose};
ghost use Rattle.command_lint.specs.History.{end_of, history_of};
ghost use Rattle.command_lint.specs.Lines.{AreFoundLines, line_in};
ghost use Rattle.command_lint.specs.Reasons.{IsBelowAt};
ghost use Rattle.command_lint.specs.Lint.{AreAllFound, IsFound, candidates_of};
ghost use Rattle.command_lint.specs.declared.rows.Found.{Found as FoundData};

use crate::form::LintForm;
use crate::history::history_of;
use crate::lines::line_in;
use crate::reasons::{Cursor, below, first_place};
use scenario_image::Scenario;
use server_lint::{Finding, Rule, Transmission, find_broken};
use std::alloc::{AllocError, Global};
use trace_text::Clocks;

/// A finding of a device.
#[derive(Clone, Copy)]
pub struct Found {
    /// The device, by its row.
    pub device: u16,
    /// What was found of it.
    pub finding: Finding,
}

/// All that was found, and its lines.
#[derive(Drop)]
pub(crate) struct Findings {
    /// What was found, in order.
    pub items: Vec<Found>,
    /// A line for each.
    pub text: String,
}

fn datagram_at(history: &[Transmission], place: usize) -> Option<&Transmission>
    ensures { option_copied result ≡ slice_get history.now place }
{
    history.get(place)
}

/// What stands below the line of a finding in a history.
fn below_at(
    alloc: Global,
    form: LintForm,
    scenario: &Scenario,
    device: u16,
    cursor: &mut Cursor,
    t: Option<&Transmission>,
) -> Result<String, AllocError>
    requires row { device < length scenario.now.rows }
    requires shows { ShowsAfter scenario.now device cursor.old.place cursor.old.machine }
    ensures shows { OnOk result (ShowsAfter scenario.now device cursor.new.place cursor.new.machine) }
    ensures lines { IfOk result (λ text. IsBelowAt form scenario.now device (option_copied t.entry)
        (string_bytes text)) }
{
    match t {
        None => Ok(String::new(alloc)),
        Some(t) => below(alloc, form, scenario, device, cursor, t),
    }
}

/// Adds a finding, and its line with what stands below it.
fn add_finding(
    alloc: Global,
    form: LintForm,
    findings: &mut Findings,
    scenario: &Scenario,
    device: u16,
    cursor: &mut Cursor,
    history: &[Transmission],
    end: u32,
    finding: Finding,
) -> Result<(), AllocError>
    requires row { device < length scenario.now.rows }
    requires history { history.now ≡ history_of scenario.now device }
    requires end { end ≡ end_of scenario.now device }
    requires shows { ShowsAfter scenario.now device cursor.old.place cursor.old.machine }
    ensures shows { OnOk result (ShowsAfter scenario.now device cursor.new.place cursor.new.machine) }
    ensures items { OnOk result (findings.new.items.items
        ≡ findings.old.items.items ++ record { device = device; finding = finding } ∷ []) }
    ensures text { OnOk result (
        AreFoundLines form scenario.now findings.old.items.items (string_bytes findings.old.text)
        → AreFoundLines form scenario.now findings.new.items.items (string_bytes findings.new.text)) }
{
    let line = line_in(alloc, form, device, history, end, finding)?;
    let t = datagram_at(history, finding.place);
    let lines = below_at(alloc, form, scenario, device, cursor, t)?;
    findings.text.push_str(line.as_str())?;
    findings.text.push_str(lines.as_str())?;
    findings.items.push(Found { device, finding })?;
    Ok(())
}

/// Adds findings, and their lines.
fn add_findings(
    alloc: Global,
    form: LintForm,
    findings: &mut Findings,
    scenario: &Scenario,
    device: u16,
    history: &[Transmission],
    end: u32,
    found: &[Finding],
) -> Result<(), AllocError>
    requires row { device < length scenario.now.rows }
    requires history { history.now ≡ history_of scenario.now device }
    requires end { end ≡ end_of scenario.now device }
    ensures items { OnOk result (findings.new.items.items
        ≡ findings.old.items.items ++ map (λ finding. record { device = device; finding = finding }) found.now) }
    ensures text { OnOk result (
        AreFoundLines form scenario.now findings.old.items.items (string_bytes findings.old.text)
        → AreFoundLines form scenario.now findings.new.items.items (string_bytes findings.new.text)) }
{
    let mut cursor = first_place(scenario, device)?;
    for finding in found {
        add_finding(
            alloc,
            form,
            findings,
            scenario,
            device,
            &mut cursor,
            history,
            end,
            *finding,
        )?;
    }
    Ok(())
}

/// Adds what is found of a device.
fn add_row(
    alloc: Global,
    form: LintForm,
    findings: &mut Findings,
    chosen: &[Rule],
    scenario: &Scenario,
    clocks: &mut Clocks,
    device: u16,
) -> Result<(), AllocError>
    requires clocks { clocks.old ≡ scenario.now }
    requires row { device < length scenario.now.rows }
    ensures clocks { OnOk result (clocks.new ≡ clocks.old) }
    ensures those { OnOk result ((so_far : List FoundData) →
        AreThose (IsFound chosen.now scenario.now) so_far findings.old.items.items
        → AreThose (IsFound chosen.now scenario.now) (so_far ++ candidates_of scenario.now device)
        findings.new.items.items) }
    ensures text { OnOk result (
        AreFoundLines form scenario.now findings.old.items.items (string_bytes findings.old.text)
        → AreFoundLines form scenario.now findings.new.items.items (string_bytes findings.new.text)) }
{
    let history = history_of(alloc, scenario, clocks, device)?;
    let found = find_broken(alloc, chosen, history.items.as_slice(), history.end)?;
    add_findings(
        alloc,
        form,
        findings,
        scenario,
        device,
        history.items.as_slice(),
        history.end,
        found.as_slice(),
    )
}

/// All that is found in a scenario.
pub(crate) fn find_all(
    alloc: Global,
    form: LintForm,
    chosen: &[Rule],
    scenario: &Scenario,
) -> Result<Findings, AllocError>
    ensures all { IfOk result (λ f. AreAllFound chosen.now scenario.now f.items.items) }
    ensures text { IfOk result (λ f. AreFoundLines form scenario.now f.items.items (string_bytes f.text)) }
{
    let mut clocks = Clocks::new(alloc, scenario)?;
    let mut findings = Findings {
        items: Vec::new(alloc),
        text: String::new(alloc),
    };
    for device in 0..scenario.rows() {
        add_row(
            alloc,
            form,
            &mut findings,
            chosen,
            scenario,
            &mut clocks,
            device as u16,
        )?;
    }
    Ok(findings)
}
