//! Two values under a ticket lock: a list that threads add to, and a board of places that workers claim. What they get
//! is proved. The program shows what no clause says: that threads, tickets and claims get anywhere at all.
#![tactic(auto)]

mod board;
mod claims;
mod ends;
mod items;
mod parts;
mod shown;
mod work;

use std::process::ExitCode;

fn main(rt: HostRuntime) -> ExitCode {
    match shown::show(&rt, rt.alloc()) {
        Ok(()) => ExitCode::SUCCESS,
        Err(_) => ExitCode::FAILURE,
    }
}
