//! What came of a file where something else was stated.

ghost use Rattle.std.specs.Prelude.{◌≡◌, length, IfOk};
ghost use Rattle.case_play.specs.Answers.{count_steps};
ghost use Rattle.case_play.specs.Arrivals.{EntriesCame, FindingCame, ScenarioCame};

use crate::came::Came;
use crate::entries::entries_in_words;
use crate::finding::Finding;
use crate::instead::{image_came, text_came, trace_came};
use case_text::FileStated;
use lwm2m_values::Text;
use scenario_image::Scenario;
use std::alloc::{AllocError, Global};
use trace_file::Entry;

/// How many classes, devices and steps a scenario has.
fn counts_of(scenario: &Scenario) -> Came
    ensures { result ≡ Came.Ok (length scenario.now.classes) (length scenario.now.rows) (count_steps scenario.now) }
{
    Came::Ok {
        classes: scenario.classes() as u64,
        devices: scenario.rows() as u64,
        steps: scenario.steps() as u64,
    }
}

fn came_of_scenario(
    alloc: Global,
    stated: &FileStated,
    scenario: &Scenario,
) -> Result<Came, AllocError>
    ensures { IfOk result (λ x. ScenarioCame stated.now scenario.now x) }
{
    match stated {
        FileStated::Image(_) => image_came(alloc, scenario),
        FileStated::Text => text_came(alloc, scenario),
        FileStated::Ok { .. }
        | FileStated::OkEntries(_)
        | FileStated::Fault(_)
        | FileStated::FaultOrOk
        | FileStated::Trace(_)
        | FileStated::Entries
        | FileStated::TextLine(_) => Ok(counts_of(scenario)),
    }
}

fn came_of_entries(
    alloc: Global,
    stated: &FileStated,
    entries: &[Entry],
) -> Result<Came, AllocError>
    ensures { IfOk result (λ x. EntriesCame stated.now entries.now x) }
{
    match stated {
        FileStated::Trace(_) => trace_came(alloc, entries),
        FileStated::Entries => {
            let words = entries_in_words(alloc, entries)?;
            Ok(Came::Entries(Text::from_string(words)))
        }
        FileStated::Ok { .. }
        | FileStated::OkEntries(_)
        | FileStated::Fault(_)
        | FileStated::FaultOrOk
        | FileStated::Image(_)
        | FileStated::Text
        | FileStated::TextLine(_) => Ok(Came::OkEntries(entries.len() as u64)),
    }
}

/// What came, where an answer stated something else than what is found.
pub(crate) fn came_of(
    alloc: Global,
    stated: &FileStated,
    finding: &Finding,
) -> Result<Came, AllocError>
    ensures { IfOk result (λ x. FindingCame stated.now finding.now x) }
{
    match finding {
        Finding::Scenario(scenario) => came_of_scenario(alloc, stated, scenario),
        Finding::Entries(entries) => came_of_entries(alloc, stated, entries.as_slice()),
        Finding::Fault(words) => Ok(Came::Fault(Text::from_str(alloc, words.as_str())?)),
    }
}
