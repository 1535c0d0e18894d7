//! The words of `play`.
use crate::argument::{Argument, ArgumentKind, Subcommand, arguments};

pub(crate) const COMMAND: Subcommand = Subcommand {
    name: "play",
    about: "Prints the serial run of a scenario as text",
    arguments: &arguments! {
        "FILE" Needed: "The scenario, as text or as an image";
        "device" Number("N", 0, 65_535): "Print only the entries of this device";
        "from" Number("N", 0, 4_294_967_295): "The first number that is printed";
        "to" Number("N", 0, 4_294_967_295): "The last number that is printed";
        "json" Flag: "Prints JSON Lines, for scripts";
        "why" Flag: "Prints why the device answers so";
    },
    below: "\
Reads FILE: what begins with LWSC is a scenario's image, any other file its text. Makes the serial run, in
which the lowest device that can step always steps, as worker 0. Prints its entries as `show` does, all or
those that `--device`, `--from` and `--to` ask for, with reasons where `--why` asks for them, and then how
the run ended, as `run` does; with `--json` an object in JSON for each entry, with its reasons too, and for
the end. The status is 0 also where it stalled:
  N worker 0 device D step K second S: STEP
  => send SERVER HEX
  => act NAME
  done E
  stalled E waiting D ..
Writes no file.

Example:
  lwbench play reader.txt
  0 worker 0 device 0 step 0 second 0: read 1 con 1 - /3/0/9 any
      # 40010001B13301300139
      # CON 0.01 GET, message 1, /3/0/9
  => send 1 60450001C0FF313030
      # ACK 2.05 Content, message 1, text/plain \"100\"
  done 1",
};
