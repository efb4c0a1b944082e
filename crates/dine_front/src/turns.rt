//! What passes sleep on until their turn comes.

ghost use Rattle.std.specs.Prelude.{◌<◌};
ghost use Rattle.dine_front.specs.Passes.{most_passes};

use crate::waiting::{PLACES, Told};
use std::hint::spin_loop;
use std::sync::Condvar;
use std::thread::yield_now;

// So often a pass whose turn hasn't come looks before it sleeps. That is some thirty microseconds: a few sleeps and
// wake-ups, or one of the longer waits for the lock and then some calls of who is waited for.
const LOOKS: u32 = 3000;

/// A condition variable for each pass, so that whose turn has come is woken and the others sleep on. That a thread which is
/// told goes on is no contract's.
#[derive(Drop)]
pub(crate) struct Turns {
    signals: [Condvar; PLACES],
}

impl Turns {
    pub(crate) fn new() -> Turns {
        Turns {
            signals: [
                Condvar::new(),
                Condvar::new(),
                Condvar::new(),
                Condvar::new(),
                Condvar::new(),
                Condvar::new(),
                Condvar::new(),
                Condvar::new(),
                Condvar::new(),
                Condvar::new(),
                Condvar::new(),
                Condvar::new(),
                Condvar::new(),
                Condvar::new(),
                Condvar::new(),
                Condvar::new(),
            ],
        }
    }

    /// What the pass with this number sleeps on.
    pub(crate) fn of(&self, number: usize) -> &Condvar
        requires { number < most_passes }
    {
        &self.signals[number]
    }

    /// How often the pass with this number was told so far, wrapping.
    pub(crate) fn told_so_far(&self, number: usize) -> u64
        requires { number < most_passes }
    {
        self.signals[number].notifications()
    }

    /// Looks a while whether the pass with this number is told, where it was told so often before.
    pub(crate) fn look(&self, number: usize, told: u64)
        requires { number < most_passes }
    {
        let signal = &self.signals[number];
        for _ in 0..LOOKS {
            if signal.notifications() != told {
                return;
            }
            spin_loop();
        }
    }

    /// Tells those whose turn has come, and lets them go first. Until this thread makes its next call, its task thinks
    /// and keeps none of them waiting, so they eat as often as they like. Were it hungry again before they are awake,
    /// each meal would cost a wake-up.
    pub(crate) fn tell(&self, told: &Told) {
        let mut is_somebody = false;
        for number in 0..PLACES {
            if told[number] {
                self.signals[number].notify_all();
                is_somebody = true;
            }
        }
        if is_somebody {
            yield_now();
        }
    }

    /// Tells all, whether they wait or not.
    pub(crate) fn tell_all(&self) {
        for signal in &self.signals {
            signal.notify_all();
        }
    }
}
