//! Which rules words choose.
ghost use Rattle.std.specs.Prelude.{◌≡◌, ◌==◌, ◌++◌, find, filter, map, option_map, IfOk};
ghost use Rattle.std.specs.List.{list_any};
ghost use Rattle.std.specs.Cmp.Lexicographic.{pointwise};
ghost use Rattle.command_lint.specs.Choice.{chosen_rules, is_chosen, is_named, is_unknown, names};

use server_lint::{RULES, Rule};
use std::alloc::{AllocError, Global};

/// Whether a word is the name of a rule.
fn names(rule: Rule, word: &str) -> bool
    ensures { result ≡ names rule word.now }
{
    word.as_bytes() == rule.name().as_bytes()
}

fn name_it(words: &[&str], rule: Rule) -> bool
    ensures { result ≡ list_any (λ word. names rule word.now) words.now }
{
    words.iter().any(|word| names(rule, word))
}

/// Whether one of the words is the name of a rule.
fn is_named(words: &[&str], rule: Rule) -> bool
    ensures { result ≡ is_named (map (λ w. w.now) words.now) rule }
{
    name_it(words, rule)
}

/// Whether words choose a rule.
fn is_chosen(only: &[&str], excluded: &[&str], rule: Rule) -> bool
    ensures { result ≡ is_chosen (map (λ w. w.now) only.now) (map (λ w. w.now) excluded.now) rule }
{
    (only.is_empty() || is_named(only, rule)) && !is_named(excluded, rule)
}

/// Those of these rules that words choose, in their order.
fn choose(
    alloc: Global,
    rules: &[Rule],
    only: &[&str],
    excluded: &[&str],
) -> Result<Vec<Rule>, AllocError>
    ensures { IfOk result (λ v. v.items
        ≡ filter (is_chosen (map (λ w. w.now) only.now) (map (λ w. w.now) excluded.now)) rules.now) }
{
    rules
        .iter()
        .copied()
        .filter(|rule| is_chosen(only, excluded, *rule))
        .collect(alloc)
}

/// The rules that words choose, in their order.
pub(crate) fn chosen_rules(
    alloc: Global,
    only: &[&str],
    excluded: &[&str],
) -> Result<Vec<Rule>, AllocError>
    ensures { IfOk result (λ v. v.items
        ≡ chosen_rules (map (λ w. w.now) only.now) (map (λ w. w.now) excluded.now)) }
{
    choose(alloc, &RULES, only, excluded)
}

/// Whether a word is the name of one of these rules.
fn names_some(rules: &[Rule], word: &str) -> bool
    ensures { result ≡ list_any (λ rule. names rule word.now) rules.now }
{
    rules.iter().any(|rule| names(*rule, word))
}

/// Whether a word is the name of no rule.
fn is_unknown(word: &str) -> bool
    ensures { result ≡ is_unknown word.now }
{
    !names_some(&RULES, word)
}

/// The first word that is the name of no rule.
#[tactic(auto, using(crate::proofs::Words::found_first, crate::proofs::Words::none_more))]
fn first_unknown<'a>(words: &[&'a str]) -> Option<&'a str>
    ensures { option_map (λ w. w.now) result ≡ find is_unknown (map (λ w. w.now) words.now) }
{
    for word in words {
        if is_unknown(word) {
            return Some(*word);
        }
    }
    None
}

/// The first of the words after `--only`, and then of those after `--not`, that is the name of no rule.
#[tactic(auto, using(crate::proofs::Words::in_first, crate::proofs::Words::in_second))]
pub(crate) fn unknown_word<'a>(only: &[&'a str], excluded: &[&'a str]) -> Option<&'a str>
    ensures { option_map (λ w. w.now) result
        ≡ find is_unknown (map (λ w. w.now) only.now ++ map (λ w. w.now) excluded.now) }
{
    match first_unknown(only) {
        Some(word) => Some(word),
        None => first_unknown(excluded),
    }
}
