//! How workers wait for jobs, and how the host wakes them.
ghost use Rattle.std.specs.Prelude.{◌<◌};

use crate::notifier::Rings;
use std::sync::Wait;
use std::sync::atomic::AtomicU64;
use std::sync::atomic::Ordering::SeqCst;

/// How often a worker looks for a job before it sleeps. This takes about 50 microseconds, in which the host hands out a
/// few jobs.
const JOB_LOOKS: u64 = 1000;

/// More workers than a board has hands for.
const MOST_WORKERS: usize = 16;

/// The notifier of jobs. A worker that has found no job since it read the epoch sleeps until the host wakes it. Each
/// worker has a number, and by it a bit of `asleep` and a word to sleep on. The host alone notifies. It takes the bit of
/// a worker before it wakes it, so the worker counts as awake from then on, and is woken once for each sleep.
///
/// No notification is lost. Each step is sequentially consistent. A job is on the board before the count of rings grows,
/// and the host reads the bits after that. A worker reads the count before it looks at the board, and compares the two
/// again after it has set its bit. So a worker whose bit the host does not find looks at the board once more before it
/// sleeps. If the host wakes nobody, no bit is set, or at least as many workers have none set as jobs are out, so there
/// is such a worker, unless there is none at all. If the host takes a bit, the worker had read its word before it set
/// the bit, and the host changes the word afterwards. So the worker does not go to sleep, or is woken. A worker that
/// comes back for another reason clears its bit itself. `tests/bell.py` tries all interleavings.
#[derive(Drop)]
pub(crate) struct JobNotifier {
    rings: Rings,
    asleep: AtomicU64,
    words: [AtomicU64; MOST_WORKERS],
}

impl JobNotifier {
    pub(crate) fn new() -> JobNotifier {
        JobNotifier {
            rings: Rings::new(JOB_LOOKS),
            asleep: AtomicU64::new(0),
            words: [
                AtomicU64::new(0),
                AtomicU64::new(0),
                AtomicU64::new(0),
                AtomicU64::new(0),
                AtomicU64::new(0),
                AtomicU64::new(0),
                AtomicU64::new(0),
                AtomicU64::new(0),
                AtomicU64::new(0),
                AtomicU64::new(0),
                AtomicU64::new(0),
                AtomicU64::new(0),
                AtomicU64::new(0),
                AtomicU64::new(0),
                AtomicU64::new(0),
                AtomicU64::new(0),
            ],
        }
    }

    /// Returns the number of notifications so far, which is the argument of `wait_past`.
    pub(crate) fn epoch(&self) -> u64 {
        self.rings.count.load(SeqCst)
    }

    /// Notifies that a job was posted. Wakes one worker if more jobs are out than workers are awake.
    pub(crate) fn notify_for(&self, jobs: usize, workers: usize) {
        self.rings.count.fetch_add(1, SeqCst);
        let asleep = self.asleep.load(SeqCst);
        let sleepers = u64::from(asleep.count_ones());
        if sleepers > 0 && (jobs as u64).saturating_add(sleepers) > workers as u64 {
            let number = asleep.trailing_zeros() as usize % MOST_WORKERS;
            let bit = 1 << number;
            if self.asleep.fetch_and(!bit, SeqCst) & bit != 0 {
                self.wake(number);
            }
        }
    }

    /// Notifies, and wakes all workers.
    pub(crate) fn notify_all(&self) {
        self.rings.count.fetch_add(1, SeqCst);
        let asleep = self.asleep.swap(0, SeqCst);
        for number in 0..MOST_WORKERS {
            if asleep & (1 << number) != 0 {
                self.wake(number);
            }
        }
    }

    // Has the worker with this number return from its sleep, or not begin it. Its bit was taken.
    fn wake(&self, number: usize)
        requires { number < 16 }
    {
        let word = &self.words[number];
        word.fetch_add(1, SeqCst);
        word.wake_one();
    }

    /// Waits until there was a notification after this epoch. It may return early. The number is the worker's own.
    pub(crate) fn wait_past<W: Wait>(&self, rt: &W, number: usize, heard: u64) {
        if self.rings.poll(heard) {
            return;
        }
        let number = number % MOST_WORKERS;
        let bit = 1 << number;
        let word = &self.words[number];
        let seen = word.load(SeqCst);
        self.asleep.fetch_or(bit, SeqCst);
        if self.rings.count.load(SeqCst) == heard {
            word.park(rt, (seen % (1 << 32)) as u32);
        }
        self.asleep.fetch_and(!bit, SeqCst);
    }
}
