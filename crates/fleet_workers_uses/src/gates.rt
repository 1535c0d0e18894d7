//! A gate that holds each worker until all have come to it.

use crossbeam_utils::Backoff;
use crossbeam_utils::atomic::AtomicCell;
use fleet_workers::Gate;

/// How often a worker looks for the others.
const TURNS: u32 = 10_000_000;

/// Which workers have come, and whether one went on without the others.
#[derive(Drop)]
pub struct AllCome {
    everyone: u64,
    come: AtomicCell<u64>,
    too_long: AtomicCell<bool>,
}

/// The bit of a worker: 1 to 4 have one each, and all others the last one.
fn bit_of(worker: u16) -> u64 {
    match worker {
        1 => 1,
        2 => 2,
        3 => 4,
        4 => 8,
        _ => 16,
    }
}

impl AllCome {
    /// Waits for workers 1 and 2.
    pub fn two() -> AllCome {
        AllCome::of(3)
    }

    /// Waits for workers 1 to 4.
    pub fn four() -> AllCome {
        AllCome::of(15)
    }

    fn of(everyone: u64) -> AllCome {
        AllCome {
            everyone,
            come: AtomicCell::new(0),
            too_long: AtomicCell::new(false),
        }
    }

    /// Whether just these came, each before another one had waited for too long.
    pub fn is_passed(&self) -> bool {
        self.come.load() == self.everyone && !self.too_long.load()
    }
}

impl Gate for AllCome {
    fn pass(&self, worker: u16, _device: u16) {
        self.come.fetch_or(bit_of(worker));
        let backoff = Backoff::new();
        for _ in 0..TURNS {
            if self.come.load() == self.everyone {
                return;
            }
            backoff.snooze();
        }
        self.too_long.store(true);
    }
}
