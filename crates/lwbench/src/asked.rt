//! What the words that were read come to.
ghost use Rattle.std.specs.Prelude.{ℕ, Bool, List};
ghost use Rattle.lwbench.specs.Command.{Came};
ghost use Rattle.command_files.specs.World.{known_by};
ghost use Rattle.command_line.specs.Words.{IsReadAs};

use crate::fleets::answer_fleet;
use crate::jobs::answer_to;
use command_files::{Answer, Refusal, Status, World, deliver};
use command_line::{Asked, Job};
use command_live::live;
use command_words::say_input;
use std::alloc::Global;
use std::net::Net;
use std::rt::Clock;
use std::sync::Wait;
use std::thread::Threads;

/// Does a job.
#[tactic(none)]
fn answer_job<'a, R: Threads + Wait + Sync, W: World>(
    rt: &R,
    alloc: Global,
    job: Job<'a>,
    world: &mut W,
) -> Result<Status, Refusal<'a>>
    ensures { (terminal : Bool) (words : List (List ℕ)) → IsReadAs words (Asked.Job job.entry)
        → Came (known_by W.Files world.old) W.faults
        (W.seen world.old) (W.seen world.new) terminal words result }
{
    let answered = answer_to(rt, alloc, job, world)?;
    match answered {
        Some(answer) => deliver(&answer, world),
        None => Ok(Status::Done),
    }
}

/// Says what a log says that standard input has.
#[tactic(none)]
fn answer_log<'a, W: World>(
    alloc: Global,
    server: u16,
    world: &mut W,
) -> Result<Status, Refusal<'a>>
    ensures { (terminal : Bool) (words : List (List ℕ)) → IsReadAs words (Asked.Log server)
        → Came (known_by W.Files world.old) W.faults
        (W.seen world.old) (W.seen world.new) terminal words result }
{
    let answer = say_input(alloc, server, world)?;
    deliver(&answer, world)
}

/// Prints a text on how to use the program.
#[tactic(none)]
fn answer_text<'a, W: World>(
    text: String,
    is_mistake: bool,
    world: &mut W,
) -> Result<Status, Refusal<'a>>
    ensures { (terminal : Bool) (words : List (List ℕ)) → IsReadAs words (Asked.Text text is_mistake)
        → Came (known_by W.Files world.old) W.faults
        (W.seen world.old) (W.seen world.new) terminal words result }
{
    let answer = Answer::printed(Status::of_text(is_mistake), text);
    deliver(&answer, world)
}

/// Does what words ask for that were read.
#[tactic(none)]
pub(crate) fn answer_words<'a, R: Threads + Wait + Sync + Net + Clock + std::io::Input, W: World>(
    rt: &R,
    alloc: Global,
    wanted: Asked<'a>,
    terminal: bool,
    world: &mut W,
) -> Result<Status, Refusal<'a>>
    ensures { (words : List (List ℕ)) → IsReadAs words wanted.entry → Came (known_by W.Files world.old) W.faults
        (W.seen world.old) (W.seen world.new) terminal words result }
{
    match wanted {
        Asked::Live(asked) => live(rt, alloc, asked, world),
        Asked::Fleet(asked) => answer_fleet(rt, alloc, asked, terminal, world),
        Asked::Log { server } => answer_log(alloc, server, world),
        Asked::Job(job) => answer_job(rt, alloc, job, world),
        Asked::Text { text, is_mistake } => answer_text(text, is_mistake, world),
    }
}
