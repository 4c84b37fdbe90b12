//! Gates that hold threads.
use drive_round::Gate;
use std::sync::atomic::{AtomicU64, Ordering};
use std::thread;

// So often a thread that is held looks whether it may go on, before it gives up.
const TURNS: u64 = 10_000_000;

/// A count that threads share.
#[derive(Drop)]
pub struct Flag {
    count: AtomicU64,
}

impl Flag {
    /// A flag that is down.
    pub fn new() -> Flag {
        Flag {
            count: AtomicU64::new(0),
        }
    }

    /// Raises it by one.
    pub fn raise(&self) {
        self.count.fetch_add(1, Ordering::SeqCst);
    }

    /// How often it was raised.
    pub fn raised(&self) -> u64 {
        self.count.load(Ordering::SeqCst)
    }

    // Whether it was raised so often, now or while this thread turned.
    fn comes_to(&self, times: u64) -> bool {
        for _ in 0..TURNS {
            if self.raised() >= times {
                return true;
            }
            thread::yield_now();
        }
        false
    }
}

/// Holds each thread before one of its events until every thread has come to that event of its own.
#[derive(Drop)]
pub struct Pace {
    pub at: u64,
    pub threads: u64,
    pub came: Flag,
    pub gave_up: Flag,
}

impl Gate for Pace {
    fn before(&self, _script: u32, event: u64) {
        if event == self.at {
            self.came.raise();
            if !self.came.comes_to(self.threads) {
                self.gave_up.raise();
            }
        }
    }
}

/// Holds each thread before one of its events until a flag is up.
#[derive(Drop)]
pub struct Until<'a> {
    pub at: u64,
    pub flag: &'a Flag,
    pub gave_up: Flag,
}

impl Gate for Until<'_> {
    fn before(&self, _script: u32, event: u64) {
        if event == self.at && !self.flag.comes_to(1) {
            self.gave_up.raise();
        }
    }
}

// What is written before any event of a run that is traced: the first line of the trace.
const WRITES_BEFORE_EVENTS: u64 = 1;

/// Holds each thread before its first event until every thread has come to its own, and notes where an
/// event was written before.
#[derive(Drop)]
pub struct First<'a> {
    pub threads: u64,
    pub written: &'a Flag,
    pub came: Flag,
    pub late: Flag,
    pub gave_up: Flag,
}

impl Gate for First<'_> {
    fn before(&self, _script: u32, event: u64) {
        if event > 0 {
            return;
        }
        if self.written.raised() > WRITES_BEFORE_EVENTS {
            self.late.raise();
        }
        self.came.raise();
        if !self.came.comes_to(self.threads) {
            self.gave_up.raise();
        }
    }
}
