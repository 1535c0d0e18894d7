//! The world that is put together of files and streams.
ghost use Rattle.std.specs.Prelude.{refl};

use crate::files::{FileFault, Files, MakesFiles};
use crate::input::Input;
use crate::output::Output;
use crate::world::World;
use std::alloc::Global;
use std::fmt::Display;

/// Files, input, output and errors, each its own: behind a `&mut` field a caller would not know what is left.
#[derive(Drop)]
pub struct Host<F, I, O, E> {
    pub files: F,
    /// Standard input.
    pub input: I,
    /// Standard output.
    pub output: O,
    /// Standard error.
    pub errors: E,
}

impl<F: MakesFiles, I, O, E> Files for Host<F, I, O, E> {
    ghost holds = { λ w. F.holds w.files };

    ghost fails = { λ w. F.fails w.files };

    ghost refuses = { F.refuses };

    fn read_all(&self, alloc: Global, path: &str) -> Result<Vec<u8>, FileFault> {
        self.files.read_all(alloc, path)
    }
}

impl<F: MakesFiles, I: Input, O: Output, E: Output> World for Host<F, I, O, E> {
    type Out = O;

    ghost seen = { λ w. record {
      made = F.made w.files;
      streams = record {
        input = I.rest w.input;
        output = O.taken w.output;
        errors = E.taken w.errors;
      };
    } };

    ghost faults = { record { input_fails = I.fails; output_refuses = O.refuses; errors_refuse = E.refuses } };

    ghost with_output = { λ w o. record w { output = o } };

    fn write_all(&mut self, path: &str, bytes: &[u8]) -> Result<(), FileFault> {
        self.files.write_all(path, bytes)
    }

    fn next_line(&mut self, alloc: Global, most: u32) -> Result<Vec<u8>, FileFault> {
        self.input.next_line(alloc, most)
    }

    fn print<D: Display + Drop>(&mut self, text: D) -> Result<(), FileFault> {
        self.output.print(text)
    }

    fn note<D: Display + Drop>(&mut self, text: D) -> Result<(), FileFault> {
        self.errors.print(text)
    }

    fn output(&mut self) -> &mut O {
        &mut self.output
    }

    ghost seen_with_output = { λ w o. refl };
}
