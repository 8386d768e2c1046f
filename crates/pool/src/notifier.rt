//! How a thread that has nothing to do waits until there is something.
use crate::job_notifier::JobNotifier;
use std::hint::spin_loop;
use std::sync::Wait;
use std::sync::atomic::AtomicU64;
use std::sync::atomic::Ordering::SeqCst;
use std::thread::yield_now;

/// How often the host looks for a turn before it sleeps.
const TURN_LOOKS: u64 = 1000;

/// The number of looks after which a thread lets another one run, which has work to do if there are fewer processors
/// than threads.
const GIVES_WAY: u64 = 32;

// Passes the time between two looks.
fn pause(look: u64) {
    if look % GIVES_WAY == GIVES_WAY - 1 {
        yield_now();
    } else {
        spin_loop();
    }
}

/// What counts the notifications of a notifier, and how long threads look for the next one. One thread at a time looks
/// for a while before it sleeps.
#[derive(Drop)]
pub(crate) struct Rings {
    /// How often a thread looks before it sleeps.
    looks: u64,
    pub(crate) count: AtomicU64,
    pub(crate) lookers: AtomicU64,
}

impl Rings {
    pub(crate) fn new(looks: u64) -> Rings {
        Rings {
            looks,
            count: AtomicU64::new(0),
            lookers: AtomicU64::new(0),
        }
    }

    // Returns whether there was a notification after this epoch. Looks for a while if no other thread does.
    pub(crate) fn poll(&self, heard: u64) -> bool {
        let others = self.lookers.fetch_add(1, SeqCst);
        let looks = if others == 0 { self.looks } else { 1 };
        let mut has_rung = false;
        for look in 0..looks {
            if self.count.load(SeqCst) != heard {
                has_rung = true;
                break;
            }
            pause(look);
        }
        self.lookers.fetch_sub(1, SeqCst);
        has_rung
    }
}

/// The notifier of turns. The host, which has found no turn since it read the epoch, sleeps until the next
/// notification. A thread that notifies while the host looks wakes nobody, since waking takes the longest of all that a
/// notification does.
///
/// No notification is lost. Each step is sequentially consistent, and what a notification is for is on the board before
/// the count of rings grows. The host reads the count before it looks at the board, and `park` compares them again in
/// the kernel. So a host that missed what was put there has an old epoch, and does not go to sleep by it. A thread that
/// notifies wakes nobody if it finds no sleeper, or one that looks. Each of those reads the count or the board once more
/// before it sleeps, and finds the notification. `tests/bell.py` tries all interleavings.
#[derive(Drop)]
pub(crate) struct TurnNotifier {
    rings: Rings,
    sleepers: AtomicU64,
}

impl TurnNotifier {
    fn new() -> TurnNotifier {
        TurnNotifier {
            rings: Rings::new(TURN_LOOKS),
            sleepers: AtomicU64::new(0),
        }
    }

    /// Returns the number of notifications so far, which is the argument of `wait_past`.
    pub(crate) fn epoch(&self) -> u64 {
        self.rings.count.load(SeqCst)
    }

    /// Notifies, and wakes one sleeper if there is one and no thread looks. A thread that looks, or is about to sleep,
    /// sees the notification.
    pub(crate) fn notify(&self) {
        self.rings.count.fetch_add(1, SeqCst);
        if self.rings.lookers.load(SeqCst) == 0 && self.sleepers.load(SeqCst) > 0 {
            self.rings.count.wake_one();
        }
    }

    /// Waits until there was a notification after this epoch. It may return early.
    pub(crate) fn wait_past<W: Wait>(&self, rt: &W, heard: u64) {
        if self.rings.poll(heard) {
            return;
        }
        self.sleepers.fetch_add(1, SeqCst);
        self.rings.count.park(rt, (heard % (1 << 32)) as u32);
        self.sleepers.fetch_sub(1, SeqCst);
    }
}

/// The two notifiers of a pool: one for jobs that were posted, on which workers wait, and one for turns that were
/// answered, on which the host waits.
#[derive(Drop)]
pub(crate) struct Notifiers {
    pub(crate) jobs: JobNotifier,
    pub(crate) turns: TurnNotifier,
}

impl Notifiers {
    pub(crate) fn new() -> Notifiers {
        Notifiers {
            jobs: JobNotifier::new(),
            turns: TurnNotifier::new(),
        }
    }
}
