//! The wire that words ask for.
ghost use Rattle.std.specs.Prelude.{◌≡◌, ◌⊎◌, Some, IfErr, IfOk, option_map};
ghost use Rattle.command_fleet.specs.Wires.{IsChosenBy, IsNoChoice, IsNoPlan, IsPlanBy, IsPlanned, is_wired};

use command_files::{Fault, Refusal, Why};
use command_line::AskedWire;
use fleet_wire::{Choice, ChoiceFault, Plan};
use std::alloc::Global;

/// Whether one of the words for datagrams is given.
fn is_wired(wire: &AskedWire) -> bool
    ensures { result ≡ is_wired wire.now }
{
    wire.lose_in.is_some()
        || wire.lose_out.is_some()
        || wire.twice.is_some()
        || wire.swap.is_some()
        || wire.late.is_some()
}

/// Why a word is no choice, for people.
fn words_of(fault: ChoiceFault) -> &'static str {
    match fault {
        ChoiceFault::NoNumber => "it is not a share, as 10%, or a list of numbers, as 2,5-6",
        ChoiceFault::OverHundred => "it is a share of more than 100%",
        ChoiceFault::OutOfOrder => "its numbers do not ascend from 1",
        ChoiceFault::Memory => "no memory was left",
    }
}

/// A word that is no choice, or for which no memory was left.
fn refusal_of<'a>(word: &'a str, fault: ChoiceFault) -> Refusal<'a>
    ensures memory { fault ≡ ChoiceFault.Memory → result.fault ≡ Fault.Memory }
    ensures wrong { (fault ≡ ChoiceFault.Memory → ⊥) → result.fault ≡ Fault.Wire }
{
    match fault {
        ChoiceFault::Memory => Refusal::from(Fault::Memory),
        ChoiceFault::NoNumber | ChoiceFault::OverHundred | ChoiceFault::OutOfOrder => Refusal {
            fault: Fault::Wire,
            about: Some(word),
            why: Why::Known(words_of(fault)),
        },
    }
}

/// The choice of a word; where it is not given, none is chosen.
#[tactic(auto, using(crate::proofs::Choices::no_choice))]
fn choice_of<'a>(alloc: Global, word: Option<&'a str>) -> Result<Choice, Refusal<'a>>
    ensures chosen { IfOk result (IsChosenBy (option_map (λ w. w.now) word.entry)) }
    ensures refused { IfErr result (λ r. (r.fault ≡ Fault.Memory)
        ⊎ ((r.fault ≡ Fault.Wire) × IsNoChoice (option_map (λ w. w.now) word.entry))) }
{
    match word {
        None => Ok(Choice::Never),
        Some(word) => match Choice::read(alloc, word.as_bytes()) {
            Ok(choice) => Ok(choice),
            Err(fault) => Err(refusal_of(word, fault)),
        },
    }
}

/// The plan that the words say.
#[tactic(auto, using(crate::proofs::Choices::no_lose_in, crate::proofs::Choices::no_lose_out, crate::proofs::Choices::no_twice, crate::proofs::Choices::no_swap, crate::proofs::Choices::no_late))]
fn plan_of<'a>(alloc: Global, wire: &AskedWire<'a>) -> Result<Plan, Refusal<'a>>
    ensures plan { IfOk result (IsPlanBy wire.now) }
    ensures refused { IfErr result (λ r. (r.fault ≡ Fault.Memory)
        ⊎ ((r.fault ≡ Fault.Wire) × IsNoPlan wire.now)) }
{
    let lose_in = choice_of(alloc, wire.lose_in)?;
    let lose_out = choice_of(alloc, wire.lose_out)?;
    let twice = choice_of(alloc, wire.twice)?;
    let swap = choice_of(alloc, wire.swap)?;
    let late = choice_of(alloc, wire.late)?;
    Ok(Plan {
        seed: u64::from(wire.seed),
        lose_in,
        lose_out,
        twice,
        swap,
        late,
        late_by: wire.late_by,
    })
}

/// The plan that the words say, if one of those for datagrams is given.
pub(crate) fn plan_if<'a>(alloc: Global, wire: &AskedWire<'a>) -> Result<Option<Plan>, Refusal<'a>>
    ensures plan { IfOk result (IsPlanned wire.now) }
    ensures refused { IfErr result (λ r. (r.fault ≡ Fault.Memory)
        ⊎ ((r.fault ≡ Fault.Wire) × IsNoPlan wire.now)) }
{
    if !is_wired(wire) {
        return Ok(None);
    }
    Ok(Some(plan_of(alloc, wire)?))
}
