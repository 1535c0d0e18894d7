//! The open work of a worker.

use std::collections::LinkedList;

/// The open work of a worker, which the lock's rule reads of a trace: the devices that are out under its number, in
/// ascending order, each with the count of its entries, and whether it has stopped the trace. No value of it is made.
pub struct OpenWork {
    pub out: LinkedList<(u16, u32)>,
    pub stopped: bool,
}
