//! The wake-ups: where those wait who found the turn taken, or their lock.
use spec_core::Dotted;
use std::array;
use std::sync::atomic::{AtomicU64, Ordering};
use std::sync::{Condvar, Mutex, Wait};

// How many places there are to sleep at.
const PLACES: usize = 64;

// The place of those who want the turn. The names of locks share the others.
const TURN: usize = 0;

/// Where those sleep who wait for the lock of this name.
pub(crate) fn place_of(name: &Dotted) -> usize {
    let bytes = name.text().as_bytes().iter();
    let mixed = bytes.fold(0usize, |mixed, byte| {
        mixed.wrapping_mul(31).wrapping_add(*byte as usize)
    });
    TURN + 1 + mixed % (PLACES - 1)
}

/// What a thread sleeps for.
#[derive(Clone, Copy)]
pub(crate) enum Wanted {
    Turn,
    Lock,
}

/// How often they rang for each.
#[derive(Clone, Copy)]
struct Rings {
    turn: u64,
    locks: u64,
}

impl Rings {
    fn of(self, wanted: Wanted) -> u64 {
        match wanted {
            Wanted::Turn => self.turn,
            Wanted::Lock => self.locks,
        }
    }

    fn count(&mut self, wanted: Wanted) {
        match wanted {
            Wanted::Turn => self.turn = self.turn.wrapping_add(1),
            Wanted::Lock => self.locks = self.locks.wrapping_add(1),
        }
    }
}

/// The wake-ups of a shared book: where those sleep who wait. They ring for one who wants the turn at each giving back,
/// and where a lock was given back for those at the place of its name, so that they sleep till then. They ring for
/// nobody where nobody sleeps, which takes no Mutex and no call of the system.
///
/// Who wants a thing counts itself in, then reads how often they rang for that, then looks whether the thing is there,
/// sleeps only where it is not and no ring has come since that reading, and counts itself out at last. Who makes the
/// thing be there rings after that, and reads the count first. No ring is lost: where that count is 0, who is counted in
/// later looks later too, and where it is not, who has read how often they rang before this ring does not sleep, or
/// wakes. No clause uses it.
#[derive(Drop)]
pub struct Bell {
    for_turn: AtomicU64,
    for_locks: AtomicU64,
    rings: Mutex<Rings>,
    woken: [Condvar; PLACES],
}

impl Bell {
    /// Wake-ups that have not rung.
    pub fn new() -> Bell {
        Bell {
            for_turn: AtomicU64::new(0),
            for_locks: AtomicU64::new(0),
            rings: Mutex::new(Rings { turn: 0, locks: 0 }),
            woken: array::from_fn(|_| Condvar::new()),
        }
    }

    // The count of those who may sleep for it.
    fn sleepers(&self, wanted: Wanted) -> &AtomicU64 {
        match wanted {
            Wanted::Turn => &self.for_turn,
            Wanted::Lock => &self.for_locks,
        }
    }

    // Counts in one who may sleep.
    pub(crate) fn enter(&self, wanted: Wanted) {
        self.sleepers(wanted).fetch_add(1, Ordering::SeqCst);
    }

    // Counts out one who was counted in.
    pub(crate) fn leave(&self, wanted: Wanted) {
        self.sleepers(wanted).fetch_sub(1, Ordering::SeqCst);
    }

    // How often they have rung.
    pub(crate) fn rung<R: Wait>(&self, rt: &R, wanted: Wanted) -> u64 {
        self.rings.lock(rt).of(wanted)
    }

    // Until they have rung for the turn since `rung` was read.
    pub(crate) fn sleep_for_turn<R: Wait>(&self, rt: &R, rung: u64) {
        self.sleep(rt, Wanted::Turn, TURN, rung);
    }

    // Until they have rung for locks since `rung` was read, for who sleeps at a place of a name.
    pub(crate) fn sleep_for_lock<R: Wait>(&self, rt: &R, place: usize, rung: u64) {
        self.sleep(rt, Wanted::Lock, place, rung);
    }

    fn sleep<R: Wait>(&self, rt: &R, wanted: Wanted, place: usize, rung: u64) {
        let _guard = self.woken[place % PLACES].wait_while(
            rt,
            self.rings.lock(rt),
            |rings| rings.of(wanted) == rung,
        );
    }

    // One ring more. The Mutex is let go before anyone is woken, who will want it.
    fn count_ring<R: Wait>(&self, rt: &R, wanted: Wanted) {
        self.rings.lock(rt).count(wanted);
    }

    // Whether someone may sleep for it, so that they have to ring, which is counted then.
    fn has_to_ring<R: Wait>(&self, rt: &R, wanted: Wanted) -> bool {
        if self.sleepers(wanted).load(Ordering::SeqCst) == 0 {
            return false;
        }
        self.count_ring(rt, wanted);
        true
    }

    // Rings once the turn was given back: for one who wants it, since whoever has it next rings
    // again when giving it back, and where a lock was given back, for those at the place of its name.
    pub(crate) fn ring<R: Wait>(&self, rt: &R, given: Option<usize>) {
        if self.has_to_ring(rt, Wanted::Turn) {
            self.woken[TURN].notify_one();
        }
        if let Some(place) = given {
            if self.has_to_ring(rt, Wanted::Lock) {
                self.woken[place % PLACES].notify_all();
            }
        }
    }

    // Rings for all, once the shared book was stopped: no turn comes any more, and all are woken to find that out.
    pub(crate) fn ring_for_all<R: Wait>(&self, rt: &R) {
        let _ = self.has_to_ring(rt, Wanted::Turn);
        let _ = self.has_to_ring(rt, Wanted::Lock);
        for woken in &self.woken {
            woken.notify_all();
        }
    }
}
