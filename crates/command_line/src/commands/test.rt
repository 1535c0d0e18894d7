//! The words of `test`.
use crate::argument::{Argument, ArgumentKind, Subcommand, arguments};

pub(crate) const COMMAND: Subcommand = Subcommand {
    name: "test",
    about: "Plays the cases of files, and says which differ",
    arguments: &arguments! {
        "FILE" Several: "A file of cases";
        "only" Text("WORDS"): "Take only the cases whose titles begin so";
        "on" Text("IMAGE"): "The scenario in whose rows servers have to send what FILE says";
        "device" Number("N", 0, 65_535): "Look only at the row of this device";
        "list" Flag: "Prints the titles of the cases, and plays none";
        "tap" Flag: "Prints what comes of them as TAP, version 14";
        "json" Flag: "Prints JSON Lines, for scripts";
        "junit" Text("FILE"): "Where a JUnit report of them goes";
    },
    below: "\
Reads each FILE, which is UTF-8, and then plays the cases, file by file; with `--only` those whose titles
begin with WORDS. For each case of which something does not come as the file states it, prints the
case's title with the number of the first line that does not hold, that line, and what came there; what
a datagram says stands below it. Where the text of a case is refused and the case does not say so,
prints the line that is refused, and why. With more than one FILE, the file's name stands before the
title. Then prints how many cases there are, and how many differ (status 3 if any does):
  TITLE, line N
  LINE
  came ANSWER
  TITLE, line N: CAUSE
  LINE
  C cases, D differ
With `--list` prints the titles, a line for each, and plays no case. With `--tap` prints what comes of the
cases as TAP, version 14, in place of this; with `--json` an object in JSON for each case, in a line of its
own, and one that counts them. With `--junit` a JUnit report goes to its FILE besides, which is replaced
where it exists; no other file is written.
A file of which a line cannot be read, or that holds no case, is a fault: no case of any file is played.

With `--on` each FILE says what servers have to send, and IMAGE is a scenario, as text or as an image, such as
`fleet --save` records it. Each case is looked at in the row of each device, or of the one that `--device`
names; of one that does not hold, its title, the device and the first line that cannot be met are printed:
  TITLE, device D, line N
  LINE

Examples:
  lwbench test reader.cases
  1 cases, 0 differ
  lwbench test server.cases --on night.image --device 7
  1 cases, 0 differ",
};
