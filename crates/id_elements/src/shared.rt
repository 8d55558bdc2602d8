//! What workers share beside inboxes: flags, counts and their seats. No claim rests on any of them: they only say when
//! workers stop and sleep (docs/THREADS.md, "Stopping" and "Sleeping").

ghost use Rattle.std.specs.Prelude.{◌≡◌, IfOk};

use std::alloc::{AllocError, Global};
use std::sync::Wait;
use std::sync::atomic::{AtomicBool, AtomicU64, Ordering};
use std::thread::Parker;
use std::time::Duration;
use std::{hint, thread};

/// So many looks at an empty inbox are a pause of some steps each, where workers are no more than the processors.
const PAUSES: u32 = 40;

/// Behind those, so many looks give the processor away.
const YIELDS: u32 = 64;

/// Behind those a worker sleeps, and after so many looks more it gives up, where a worker has not begun or has given
/// up.
const PATIENCE: u32 = 20;

/// A sleep lasts so many milliseconds at the most.
const SLEEP: u64 = 20;

/// A flag or a count, and so many bytes behind it that no other stands in its line of a processor's cache.
#[derive(Drop)]
struct Apart<T> {
    value: T,
    _behind: [u64; 15],
}

/// How many letters a worker has sent, and how many it has done: those that it took out of its inbox, where it could
/// handle nothing more of its own since, and had sent its letters. Neither ever sinks.
#[derive(Drop)]
struct Counts {
    sent: AtomicU64,
    done: AtomicU64,
}

/// What a worker alone writes, but for its parker, which others unpark.
#[derive(Drop)]
struct Seat {
    parker: Parker,
    sleeps: Apart<AtomicBool>,
    // 0, or a number above 0 where the worker looks for letters: another one each time that it begins to.
    hungry: Apart<AtomicU64>,
    counts: Apart<Counts>,
}

/// When workers stop and sleep.
#[derive(Drop)]
pub struct Shared {
    // Whether workers are to stop: read in each round.
    stopped: Apart<AtomicBool>,
    refused: AtomicBool,
    // The letters that stood in inboxes at the start.
    first: u64,
    begun: AtomicU64,
    gave_up: AtomicBool,
    workers: u64,
    // After so many looks a worker yields.
    pauses: u32,
    seats: Vec<Seat>,
}

impl<T: Drop> Apart<T> {
    fn new(value: T) -> Apart<T> {
        Apart {
            value,
            _behind: [0; 15],
        }
    }
}

impl Shared {
    /// For so many workers, with so many letters in inboxes, where so many threads can run at one time. At the start
    /// all look for letters.
    pub fn new(
        alloc: Global,
        workers: u32,
        first: usize,
        processors: usize,
    ) -> Result<Shared, AllocError> {
        let mut seats = Vec::with_capacity(alloc, workers as usize)?;
        for _ in 0..workers {
            seats.push(Seat {
                parker: Parker::new(),
                sleeps: Apart::new(AtomicBool::new(false)),
                hungry: Apart::new(AtomicU64::new(1)),
                counts: Apart::new(Counts {
                    sent: AtomicU64::new(0),
                    done: AtomicU64::new(0),
                }),
            })?;
        }
        let pauses = if workers as usize <= processors {
            PAUSES
        } else {
            0
        };
        Ok(Shared {
            stopped: Apart::new(AtomicBool::new(false)),
            refused: AtomicBool::new(false),
            first: first as u64,
            begun: AtomicU64::new(0),
            gave_up: AtomicBool::new(false),
            workers: u64::from(workers),
            pauses,
            seats,
        })
    }

    /// Notes that a worker has begun.
    pub fn begin(&self) {
        self.begun.fetch_add(1, Ordering::SeqCst);
    }

    /// Stops all workers.
    pub fn stop(&self) {
        self.stopped.value.store(true, Ordering::SeqCst);
        for seat in &self.seats {
            seat.parker.unpark();
        }
    }

    /// Stops all workers for want of memory.
    pub fn refuse(&self) {
        self.refused.store(true, Ordering::SeqCst);
        self.stop();
    }

    /// Whether memory was refused to a worker.
    pub fn was_refused(&self) -> bool {
        self.refused.load(Ordering::SeqCst)
    }

    /// Whether workers are to stop.
    #[inline(always)]
    pub fn is_stopped(&self) -> bool {
        self.stopped.value.load(Ordering::SeqCst)
    }

    /// Tells how many letters the worker of this number has sent, with the one that it is about to put into an inbox.
    #[inline(always)]
    pub fn count_sent(&self, number: usize, sent: u64) {
        if let Some(seat) = self.seats.get(number) {
            seat.counts.value.sent.store(sent, Ordering::SeqCst);
        }
    }

    /// Whether the worker of this number looks for letters, and since when: 0 where it does not, or else another number
    /// each time. It may be late.
    #[inline(always)]
    pub fn hunger(&self, number: usize) -> u64 {
        match self.seats.get(number) {
            Some(seat) => seat.hungry.value.load(Ordering::SeqCst),
            None => 0,
        }
    }

    /// Tells that of the worker of this number.
    #[inline(always)]
    pub fn tell_hunger(&self, number: usize, hunger: u64) {
        if self.hunger(number) != hunger {
            if let Some(seat) = self.seats.get(number) {
                seat.hungry.value.store(hunger, Ordering::SeqCst);
            }
        }
    }

    /// Wakes the worker of this number, if it sleeps.
    pub fn wake(&self, number: usize) {
        if let Some(seat) = self.seats.get(number) {
            if seat.sleeps.value.load(Ordering::SeqCst) {
                seat.parker.unpark();
            }
        }
    }

    /// Notes that the worker of this number, which found a letter, is not about to sleep.
    pub fn rise(&self, number: usize) {
        if let Some(seat) = self.seats.get(number) {
            if seat.sleeps.value.load(Ordering::SeqCst) {
                seat.sleeps.value.store(false, Ordering::SeqCst);
            }
        }
    }

    /// Tells how many letters the worker of this number has done.
    pub fn count_done(&self, number: usize, done: u64) {
        if let Some(seat) = self.seats.get(number) {
            seat.counts.value.done.store(done, Ordering::SeqCst);
        }
    }

    /// Stops all workers where no letter is left anywhere: where as many were done as were sent. What was done is added
    /// first: so both sums are the same only where all that was sent by some moment between was done by then.
    #[inline(never)]
    pub fn stop_if_done(&self) {
        let mut done = 0u64;
        for seat in &self.seats {
            done = done.saturating_add(seat.counts.value.done.load(Ordering::SeqCst));
        }
        let mut sent = self.first;
        for seat in &self.seats {
            sent = sent.saturating_add(seat.counts.value.sent.load(Ordering::SeqCst));
        }
        if sent == done {
            self.stop();
        }
    }

    /// Waits a little, where the worker of this number found its inbox empty so many times in a row, and says whether
    /// it is to look again: it gives up where it has waited long and another has not begun, or has given up, since
    /// those that no thread could be made for begin when others have ended.
    pub fn wait<R: Wait>(&self, rt: &R, number: usize, looks: u32) -> bool {
        if looks <= self.pauses {
            hint::spin_loop();
            return true;
        }
        let yields = self.pauses.saturating_add(YIELDS);
        if looks <= yields {
            thread::yield_now();
            return true;
        }
        if looks > yields.saturating_add(PATIENCE) && self.is_incomplete() {
            self.gave_up.store(true, Ordering::SeqCst);
            return false;
        }
        self.sleep(rt, number);
        true
    }

    /// Whether some worker has not begun, or has given up.
    fn is_incomplete(&self) -> bool {
        self.begun.load(Ordering::SeqCst) < self.workers || self.gave_up.load(Ordering::SeqCst)
    }

    /// Lets the worker of this number sleep until it is woken, or for a while. The first time it only says that it is
    /// about to sleep, so that who sends to it wakes it, and looks once more.
    fn sleep<R: Wait>(&self, rt: &R, number: usize) {
        if self.is_stopped() {
            return;
        }
        if let Some(seat) = self.seats.get(number) {
            if seat.sleeps.value.load(Ordering::SeqCst) {
                seat.parker.park_timeout(rt, Duration::from_millis(SLEEP));
                seat.sleeps.value.store(false, Ordering::SeqCst);
            } else {
                seat.sleeps.value.store(true, Ordering::SeqCst);
            }
        }
    }
}
