//! What is found in a history.
ghost use Rattle.std.specs.Prelude.{◌≡◌, ◌≤◌, ◌∷◌, ◌++◌, ◌↔◌, [], List, IfOk, IsTrue, OnOk, length};
ghost use Rattle.std.specs.List.{Contains};
ghost use Rattle.server_lint.specs.Findings.{AreThose, IsFinding, candidates, candidates_at};

use crate::breaking::breaks;
use crate::rule::{RULES, Rule};
use crate::transmission::Transmission;
use std::alloc::{AllocError, Global};

/// A datagram of a history that breaks a rule.
#[derive(Clone, Copy)]
pub struct Finding {
    /// Its place in the history, counted from 0.
    pub place: usize,
    /// The rule.
    pub rule: Rule,
}

/// Whether the rule is one of the chosen ones.
fn is_chosen(chosen: &[Rule], rule: Rule) -> bool
    ensures { IsTrue result ↔ Contains chosen.now rule }
{
    for other in chosen {
        if *other == rule {
            return true;
        }
    }
    false
}

/// Whether the datagram at this place of a history, which ends in this second, breaks a rule that is chosen.
fn is_finding(chosen: &[Rule], history: &[Transmission], end: u32, place: usize, rule: Rule) -> bool
    requires { place ≤ length history.now }
    ensures { IsTrue result ↔ IsFinding chosen.now history.now end (record { place = place; rule = rule }) }
{
    let (before, rest) = history.split_at(place);
    let [t, after @ ..] = rest else {
        return false;
    };
    is_chosen(chosen, rule) && breaks(rule, before, t, after, end)
}

/// Adds what is found by one rule at a place of a history.
#[tactic(auto, using(crate::proofs::Those::one_more, crate::proofs::Those::none_more))]
fn add_rule(
    found: &mut Vec<Finding>,
    chosen: &[Rule],
    history: &[Transmission],
    end: u32,
    place: usize,
    rule: Rule,
) -> Result<(), AllocError>
    requires { place ≤ length history.now }
    ensures { OnOk result ((so_far : List Finding) →
        AreThose (IsFinding chosen.now history.now end) so_far found.old.items
        → AreThose (IsFinding chosen.now history.now end)
        (so_far ++ record { place = place; rule = rule } ∷ []) found.new.items) }
{
    if is_finding(chosen, history, end, place, rule) {
        found.push(Finding { place, rule })?;
    }
    Ok(())
}

/// Adds what is found at a place of a history.
fn add_place(
    found: &mut Vec<Finding>,
    chosen: &[Rule],
    history: &[Transmission],
    end: u32,
    place: usize,
) -> Result<(), AllocError>
    requires { place ≤ length history.now }
    ensures { OnOk result ((so_far : List Finding) →
        AreThose (IsFinding chosen.now history.now end) so_far found.old.items
        → AreThose (IsFinding chosen.now history.now end) (so_far ++ candidates_at place) found.new.items) }
{
    for rule in RULES {
        add_rule(found, chosen, history, end, place, rule)?;
    }
    Ok(())
}

/// What breaks the chosen rules in a history that ends in this second, each rule exactly where it is broken: in the
/// order of the datagrams, and at one datagram in the order of the rules.
pub fn find_broken(
    alloc: Global,
    chosen: &[Rule],
    history: &[Transmission],
    end: u32,
) -> Result<Vec<Finding>, AllocError>
    ensures { IfOk result (λ v. AreThose (IsFinding chosen.now history.now end) (candidates (length history.now))
        v.items) }
{
    let mut found = Vec::new(alloc);
    for place in 0..history.len() {
        add_place(&mut found, chosen, history, end, place)?;
    }
    Ok(found)
}
