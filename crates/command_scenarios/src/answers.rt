//! What the program answers to the words that are about scenarios and their runs. Nothing is written or printed here: a
//! file that is only borrowed cannot be.
ghost use Rattle.std.specs.Prelude.{IfErr, IfOk, option_map};
ghost use Rattle.command_files.specs.Loading.{IsCheckRefused, IsImageFault};
ghost use Rattle.command_files.specs.Verdicts.{IsCheckDone};
ghost use Rattle.command_scenarios.specs.Jobs.{IsAsmDone, IsCheckJsonDone, IsDisDone, IsRunDone};
ghost use Rattle.command_scenarios.specs.Jobs.{IsRunRefused};
ghost use Rattle.command_texts.specs.Texts.{IsTextFault};

use crate::runs::run_scenario;
use crate::texts::count_line;
use crate::verdicts::verdict_in_json;
use command_files::files::Files;
use command_files::{
    Answer, Refusal, Status, image_file, load_scenario, load_verdict, verdict_answer,
};
use command_texts::load_text;
use scenario_asm::disassemble;
use std::alloc::Global;
use std::sync::Wait;
use std::thread::Threads;

/// `asm IN OUT`: the scenario of a text, whose image goes to OUT, in version 2.
#[tactic(auto, using(crate::proofs::Built::asm_done, command_texts::proofs::Denoted::text_memory))]
pub fn asm<'a, F: Files>(
    alloc: Global,
    input: &'a str,
    output: &'a str,
    files: &F,
) -> Result<Answer<'a>, Refusal<'a>>
    ensures done { IfOk result
        (IsAsmDone (F.holds files.now) (record { text = input.entry.now; image = output.entry.now })) }
    ensures refused { IfErr result (λ r. IsTextFault (F.holds files.now) (F.fails files.now) input.entry.now r.fault) }
{
    let scenario = load_text(alloc, input, files)?;
    let file = image_file(alloc, &scenario, output)?;
    let text = count_line(alloc, &scenario)?;
    Ok(Answer {
        status: Status::Done,
        text,
        file: Some(file),
    })
}

/// `dis IN`: the canonical text of the scenario of an image, of either version.
#[tactic(auto, using(crate::proofs::Built::dis_done, command_files::proofs::Faults::file_memory))]
pub fn dis<'a, F: Files>(
    alloc: Global,
    input: &'a str,
    files: &F,
) -> Result<Answer<'a>, Refusal<'a>>
    ensures done { IfOk result (IsDisDone (F.holds files.now) input.entry.now) }
    ensures refused { IfErr result (λ r. IsImageFault (F.holds files.now) (F.fails files.now) input.entry.now r.fault) }
{
    let scenario = load_scenario(alloc, input, files)?;
    let text = disassemble(alloc, &scenario)?;
    Ok(Answer::printed(Status::Done, text))
}

/// `run IMAGE [--workers N] [--batch N] [--trace FILE]`: a run of the scenario, whose trace file goes to FILE.
#[tactic(auto, using(crate::proofs::Built::run_done, crate::proofs::Built::run_image, crate::proofs::Built::run_work))]
pub fn run<'a, R: Threads + Wait + Sync, F: Files>(
    rt: &R,
    alloc: Global,
    image: &'a str,
    workers: u16,
    batch: u32,
    trace: Option<&'a str>,
    files: &F,
) -> Result<Answer<'a>, Refusal<'a>>
    ensures done { IfOk result (IsRunDone (F.holds files.now) image.entry.now
        (record { workers = workers; batch = batch }) (option_map (λ p. p.now) trace.entry)) }
    ensures refused { IfErr result (λ r. IsRunRefused (F.holds files.now) (F.fails files.now) image.entry.now
        (record { workers = workers; batch = batch }) r.fault) }
{
    let scenario = load_scenario(alloc, image, files)?;
    Ok(run_scenario(rt, alloc, &scenario, workers, batch, trace)?)
}

/// `check IMAGE TRACE`: whether the trace is a run of the scenario, else the least place at which it is not.
#[tactic(auto, using(crate::proofs::Built::check_done, command_files::proofs::Built::check_image, command_files::proofs::Built::check_trace, command_files::proofs::Faults::file_memory))]
pub fn check<'a, F: Files>(
    alloc: Global,
    image: &'a str,
    trace: &'a str,
    files: &F,
) -> Result<Answer<'a>, Refusal<'a>>
    ensures done { IfOk result
        (IsCheckDone (F.holds files.now) (record { image = image.entry.now; trace = trace.entry.now })) }
    ensures refused { IfErr result (λ r. IsCheckRefused (F.holds files.now) (F.fails files.now)
        (record { image = image.entry.now; trace = trace.entry.now }) r.fault) }
{
    let scenario = load_scenario(alloc, image, files)?;
    let verdict = load_verdict(alloc, trace, &scenario, files)?;
    Ok(verdict_answer(alloc, verdict)?)
}

/// `check IMAGE TRACE --json`: the same verdict as an object in a line.
#[tactic(auto, using(crate::proofs::Built::check_json_done, command_files::proofs::Built::check_image, command_files::proofs::Built::check_trace, command_files::proofs::Faults::file_memory))]
pub fn check_json<'a, F: Files>(
    alloc: Global,
    image: &'a str,
    trace: &'a str,
    files: &F,
) -> Result<Answer<'a>, Refusal<'a>>
    ensures done { IfOk result
        (IsCheckJsonDone (F.holds files.now) (record { image = image.entry.now; trace = trace.entry.now })) }
    ensures refused { IfErr result (λ r. IsCheckRefused (F.holds files.now) (F.fails files.now)
        (record { image = image.entry.now; trace = trace.entry.now }) r.fault) }
{
    let scenario = load_scenario(alloc, image, files)?;
    let verdict = load_verdict(alloc, trace, &scenario, files)?;
    Ok(verdict_in_json(alloc, verdict)?)
}
