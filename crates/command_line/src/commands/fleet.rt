//! The words of `fleet`.
use crate::argument::{Argument, ArgumentKind, Subcommand, arguments};

pub(crate) const COMMAND: Subcommand = Subcommand {
    name: "fleet",
    about: "Lets all devices of a scenario answer, each at a UDP port of its own",
    arguments: &arguments! {
        "FILE" Needed: "The scenario, as text or as an image";
        "PORT" NeededNumber(0, 65_535): "The UDP port of the first device (0: any free port for each)";
        "seconds" Number("N", 1, 4_294_967_295): "For how many seconds they go on, 1 to 4294967295";
        "devices" Text("A-B"): "Only the devices from A to B";
        "copies" Number("N", 1, 16_384): "How many devices there are, 1 to 16384: the rows over and over";
        "play" Flag: "Lets the steps of the rows happen as seconds pass";
        "loop" Flag: "The same, and begins a row anew when all of it has happened";
        "bind" TextOr("ADDRESS", "127.0.0.1"): "The IP address of the ports";
        "server" Texts("S=ADDRESS[:PORT]"): "The address of server S for all devices; may be given more than once";
        "ports" Text("FILE"): "Where the list of the devices' ports goes";
        "lose-in" Text("WHICH"): "Loses these on their way to a device: 10%, or numbers as 2,5-6";
        "lose-out" Text("WHICH"): "Loses these on their way from a device";
        "twice" Text("WHICH"): "Delivers these twice";
        "swap" Text("WHICH"): "Delivers these after the next one";
        "late" Text("WHICH"): "Delivers these late";
        "late-by" NumberOr("N", 1, 4_294_967_295, "1"): "How many seconds late, 1 to 4294967295";
        "seed" NumberOr("N", 0, 4_294_967_295, "0"): "What is drawn for a share begins from this number";
        "save" Text("FILE"): "Where the image of what happened goes";
        "expect" Text("FILE"): "What servers have to send; it ends when that is settled";
        "junit" Text("FILE"): "Where a JUnit report of that goes";
        "strict" Flag: "Ends with status 3 where a datagram was dropped or lost";
        "show" Flag: "Prints each datagram that a device receives or sends";
        "json" Flag: "Prints JSON Lines, for scripts";
    },
    below: "\
Reads FILE: what begins with LWSC is a scenario's image, any other file its text. Starts the devices of it,
without the steps of their rows, and lets each answer the datagrams that arrive at a UDP port of its own:
device d at PORT + d of the address of `--bind`, or, with `--devices`, only devices A to B, device A at
PORT. Where PORT is 0, each is at a port that the system chooses, and a line for each says which:
  device D at port P
With `--copies` there are N devices, 1 to 16384: the rows over and over. With `--play` the steps of the rows
happen as seconds pass; with `--loop` they do, and a row begins anew when all of it has happened. With
`--server` the server S of all devices is at that address, at any port of it or at this one; an IPv6 address
with a port is in brackets. Once all ports are there, writes a line D P for the port P of each device D to the
FILE of `--ports`, and no file without it, and prints on standard error
  lwbench: ready N at ADDRESS:PORT
It ends after the seconds of `--seconds`, or, if it is not given, when standard input ends; and when a line
of standard input is q. Writes the image of what happened to the FILE of `--save`, which is replaced
where it exists, and no file without it: the steps of each device, at most 4096. Each minute of a session
writes what has happened so far to FILE.snapshot, which is not removed. At the end prints
  done seconds S devices N received N sent N dropped N lost N
A datagram is dropped that comes from no account of its device, or is longer than 1500 bytes; one is lost
that the system did not take. With `--strict` the status is 3 where one was dropped or lost. With `--show`
prints a line for each datagram that a device receives or sends, in words:
  S s  device D  from SERVER  WORDS
  S s  device D  to SERVER    WORDS
With `--json` prints JSON Lines in place of these lines: when all ports are there, each second, of each
datagram with `--show`, and at the end.

With `--expect`, which needs `--save`, its FILE says what servers have to send to each device. The session
ends when no later datagram can change whether they did, too, and then prints of it what
`lwbench test FILE --on IMAGE` does, IMAGE being what was saved. The status is 3 where a case is not met.

A wire between the devices and their ports loses, doubles, exchanges and delays datagrams. WHICH is a share,
as 10%, or a list of numbers, as 2,5-6: the datagrams of each device that go one way count from 1. One that
is swapped goes right after the next one, one that is late after `--late-by` seconds. Each of them has a line,
which says which it is, and the line at the end goes on:
  S s  device D  in      datagram N lost
  wire lost N twice N swapped N late N

Example:
  lwbench fleet reader.txt 20000 --seconds 60",
};
