//! The jobs that the words ask for: what each is answered with.
ghost use Rattle.std.specs.Prelude.{◌≡◌, ◌⊎◌, IfErr, IfNone, IfOk, IfSome};
ghost use Rattle.lwbench.specs.Command.{IsCheckAnswer, IsCutJob, IsDebuggedJob, IsDone, IsOneAnswer};
ghost use Rattle.lwbench.specs.Command.{IsRefusedJob};
ghost use Rattle.command_demo.specs.One.{IsOneFault};
ghost use Rattle.command_files.specs.Loading.{IsCheckRefused};
ghost use Rattle.command_files.specs.World.{IsIdle};

use crate::forms::{form_of, lint_form, play_form, report_form};
use command_debug::debug;
use command_demo::{one, one_json, one_why};
use command_expect::expect;
use command_files::files::Files;
use command_files::{Answer, Refusal, World};
use command_join::join;
use command_line::{Job, TraceForm as AskedForm};
use command_lint::lint;
use command_play::play;
use command_scenarios::{asm, check, check_json, dis, run};
use command_test::{test, titles};
use command_traces::{pcap, show};
use command_words::{say, spell};
use std::alloc::Global;
use std::sync::Wait;
use std::thread::Threads;
use trace_text::Selection;

/// What the demonstration device does with one datagram, in this form.
#[tactic(none)]
fn answer_to_one<'a>(
    alloc: Global,
    hex: &'a str,
    form: AskedForm,
) -> Result<Answer<'a>, Refusal<'a>>
    ensures done { IfOk result (IsOneAnswer hex.entry.now form) }
    ensures refused { IfErr result (λ r. IsOneFault hex.entry.now r.fault) }
{
    match form {
        AskedForm::Text => {
            let answer = one(alloc, hex)?;
            Ok(answer)
        }
        AskedForm::Reasons => {
            let answer = one_why(alloc, hex)?;
            Ok(answer)
        }
        AskedForm::JsonLines => {
            let answer = one_json(alloc, hex)?;
            Ok(answer)
        }
    }
}

/// The verdict on a trace, as a line or as an object in JSON.
#[tactic(none)]
fn answer_to_check<'a, F: Files>(
    alloc: Global,
    image: &'a str,
    trace: &'a str,
    json: bool,
    files: &F,
) -> Result<Answer<'a>, Refusal<'a>>
    ensures done { IfOk result (IsCheckAnswer (F.holds files.now)
        (record { image = image.entry.now; trace = trace.entry.now }) json) }
    ensures refused { IfErr result (λ r. IsCheckRefused (F.holds files.now) (F.fails files.now)
        (record { image = image.entry.now; trace = trace.entry.now }) r.fault) }
{
    if json {
        let answer = check_json(alloc, image, trace, files)?;
        Ok(answer)
    } else {
        let answer = check(alloc, image, trace, files)?;
        Ok(answer)
    }
}

/// What the program answers to a job; none where that is a debugger over a run: then the lines of standard input were
/// answered.
pub(crate) fn answer_to<'a, R: Threads + Wait + Sync, W: World>(
    rt: &R,
    alloc: Global,
    job: Job<'a>,
    world: &mut W,
) -> Result<Option<Answer<'a>>, Refusal<'a>>
    ensures done { IfOk result (λ o. IfSome o (IsDone (W.holds world.old) job.entry)) }
    ensures idle { IfOk result (λ o. IfSome o (λ _. IsIdle (W.seen world.old).streams (W.seen world.new).streams)) }
    ensures debugged { IfOk result (λ o. IfNone o (IsDebuggedJob (W.holds world.old) W.faults job.entry
        (W.seen world.old).streams (W.seen world.new).streams)) }
    ensures refused { IfErr result (λ r. (IsRefusedJob (W.holds world.old) (W.fails world.old) job.entry r.fault
        × IsIdle (W.seen world.old).streams (W.seen world.new).streams)
        ⊎ IsCutJob (W.holds world.old) W.faults job.entry (W.seen world.old).streams (W.seen world.new).streams
        r.fault) }
    ensures none_made { (W.seen world.new).made ≡ (W.seen world.old).made }
{
    match job {
        Job::One { hex, form } => {
            let answer = answer_to_one(alloc, hex, form)?;
            Ok(Some(answer))
        }
        Job::Say { hex, server } => {
            let answer = say(alloc, hex, server)?;
            Ok(Some(answer))
        }
        Job::Spell { statement } => {
            let answer = spell(alloc, statement.as_slice())?;
            Ok(Some(answer))
        }
        Job::Play {
            file,
            device,
            from,
            to,
            form,
        } => {
            let part = Selection { device, from, to };
            let answer = play(alloc, file, play_form(form), part, world)?;
            Ok(Some(answer))
        }
        Job::Asm {
            input: text,
            output: path,
        } => {
            let answer = asm(alloc, text, path, world)?;
            Ok(Some(answer))
        }
        Job::Dis { input: path } => {
            let answer = dis(alloc, path, world)?;
            Ok(Some(answer))
        }
        Job::Run {
            image,
            workers,
            batch,
            trace,
        } => {
            let answer = run(rt, alloc, image, workers, batch, trace, world)?;
            Ok(Some(answer))
        }
        Job::Check { image, trace, json } => {
            let answer = answer_to_check(alloc, image, trace, json, world)?;
            Ok(Some(answer))
        }
        Job::Show {
            image,
            trace,
            device,
            from,
            to,
            form,
        } => {
            let selection = Selection { device, from, to };
            let answer = show(alloc, image, trace, form_of(form), selection, world)?;
            Ok(Some(answer))
        }
        Job::Pcap {
            image,
            trace,
            output: path,
        } => {
            let answer = pcap(alloc, image, trace, path, world)?;
            Ok(Some(answer))
        }
        Job::Debug {
            image,
            trace,
            reasons,
        } => debug(alloc, image, trace, reasons, world),
        Job::Titles { files: paths, only } => {
            let answer = titles(alloc, paths.as_slice(), only, world)?;
            Ok(Some(answer))
        }
        Job::Test {
            files: paths,
            only,
            form,
            junit,
        } => {
            let form = report_form(form);
            let answer = test(alloc, paths.as_slice(), only, form, junit, world)?;
            Ok(Some(answer))
        }
        Job::Expect {
            files: paths,
            image,
            device,
            only,
            form,
            junit,
        } => {
            let form = report_form(form);
            let answer = expect(
                alloc,
                paths.as_slice(),
                image,
                device,
                only,
                form,
                junit,
                world,
            )?;
            Ok(Some(answer))
        }
        Job::Join {
            output: path,
            images,
        } => {
            let answer = join(alloc, path, images.as_slice(), world)?;
            Ok(Some(answer))
        }
        Job::Lint {
            file,
            only,
            except,
            form,
        } => {
            let form = lint_form(form);
            let answer = lint(alloc, file, form, only.as_slice(), except.as_slice(), world)?;
            Ok(Some(answer))
        }
    }
}
