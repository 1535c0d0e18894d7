//! What decides an answer.

use crate::format::Served;
use crate::limit::{FirmwareState, Limit};
use crate::options::OptionFault;
use crate::right::{Grant, Letter};
use crate::target::Missing;
use crate::unfit::Unfit;
use crate::uri_path::PathFault;
use device_requests::Operation;
use object_defs::{Ops, Path};

/// What decides the answer to a request: the first rule that refuses it, or that none does. The numbers are those of
/// docs/device/requests.md.
#[derive(Drop)]
pub enum Reason {
    /// Rule 3: an option that must be understood is not recognized.
    Unrecognized {
        /// Its number.
        number: u16,
        /// Why it is not.
        fault: OptionFault,
    },
    /// Rule 4: the Uri-Path is not a path.
    NoPath {
        /// Why it is not.
        fault: PathFault,
    },
    /// Rule 5: the method has no operation at this kind of path.
    NoOperation {
        /// The method, by its code.
        method: u8,
        /// What the Uri-Path names.
        path: Path,
    },
    /// Rules 6 to 12: a rule of the operation refuses it.
    Refused {
        /// What the Uri-Path names.
        path: Path,
        /// What is asked for there.
        operation: Operation,
        /// The rule, with what it read.
        rule: Rule,
    },
    /// No rule refuses it.
    Done {
        /// What the Uri-Path names.
        path: Path,
        /// What is asked for there.
        operation: Operation,
    },
}

/// A rule that refuses an operation at a path, with what it read.
#[derive(Drop)]
pub enum Rule {
    /// Rule 6: the path names object 0.
    Security,
    /// Rule 7: the target does not exist.
    Target {
        /// What of it is not there.
        missing: Missing,
    },
    /// Rule 8: the server lacks the right on an instance.
    Right {
        /// The server.
        server: u16,
        /// The letter that is asked for.
        letter: Letter,
        /// The number of the instance; 65535 where one is to be created.
        instance: u16,
        /// What decides the server's right on it.
        grant: Grant,
    },
    /// Rule 8: the server lacks R on each instance of the object that it would read.
    RightOnAll {
        /// The server.
        server: u16,
        /// How many instances there are.
        count: usize,
        /// The number of the first.
        instance: u16,
        /// What decides the server's right on that one.
        grant: Grant,
    },
    /// Rule 9: the target does not have the operation.
    Operation {
        /// The operations of the resource; none where the target is an object or an instance.
        operations: Option<Ops>,
    },
    /// Rule 10: the format is not served there.
    Format {
        /// The number by which Accept or Content-Format names it.
        number: u16,
        /// The formats that are served.
        served: Served,
    },
    /// Rule 11: the payload, the queries or the arguments are not valid.
    Payload {
        /// What of them is not.
        unfit: Unfit,
    },
    /// Rule 12: the firmware does not take it now.
    State {
        /// The State of the firmware.
        state: FirmwareState,
    },
    /// Rule 12: more would be shown or stored than may be.
    Limit {
        /// The limit that would be passed.
        limit: Limit,
    },
}
