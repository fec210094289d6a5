//! Gates that hold a pass until another was called for.

use spin_outside::Gate;
use std::hint;
use std::sync::atomic::{AtomicBool, Ordering};

// The most turns for which a gate holds a lane or a worker.
const TURNS: u64 = 100_000_000;

// A pass of the gate: the number of the deed or job, and whose it may be.
#[derive(Clone, Copy)]
pub(crate) struct Pass {
    first: u8,
    last: u8,
    deed: u32,
}

// A lane's pass before its deed.
pub(crate) const fn lane(number: u8, deed: u32) -> Pass {
    Pass {
        first: number,
        last: number,
        deed,
    }
}

// Any worker's pass before the job.
pub(crate) const fn worker(job: u32) -> Pass {
    Pass {
        first: 8,
        last: 15,
        deed: job,
    }
}

impl Pass {
    fn is(self, lane: u8, deed: u32) -> bool {
        self.first <= lane && lane <= self.last && self.deed == deed
    }
}

// Holds a pass until another was called for, and notes whether that took too long.
#[derive(Drop)]
pub(crate) struct Hold {
    held: Pass,
    until: Pass,
    passed: AtomicBool,
    late: AtomicBool,
}

impl Hold {
    pub(crate) fn new(held: Pass, until: Pass) -> Hold {
        Hold {
            held,
            until,
            passed: AtomicBool::new(false),
            late: AtomicBool::new(false),
        }
    }

    pub(crate) fn note(&self, lane: u8, deed: u32) {
        if self.until.is(lane, deed) {
            self.passed.store(true, Ordering::SeqCst);
        }
    }

    fn wait(&self) {
        for _ in 0..TURNS {
            if self.passed.load(Ordering::SeqCst) {
                return;
            }
            hint::spin_loop();
        }
        self.late.store(true, Ordering::SeqCst);
    }

    pub(crate) fn hold(&self, lane: u8, deed: u32) {
        if self.held.is(lane, deed) {
            self.wait();
        }
    }

    // Whether the pass was let through in time, or never came.
    pub(crate) fn is_in_time(&self) -> bool {
        !self.late.load(Ordering::SeqCst)
    }
}

impl Gate for Hold {
    fn pass(&self, lane: u8, deed: u32) {
        self.note(lane, deed);
        self.hold(lane, deed);
    }
}
