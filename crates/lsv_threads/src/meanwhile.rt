//! What a lane's thread does while it waits.

use crate::Parkings;
use lsv_port::Bell;
use std::sync::Wait;
use std::thread;

/// What a lane's thread does while it waits for room, or for jobs.
pub trait Meanwhile {
    /// What holds between two calls.
    ghost ready: { Self → Type 0 };

    /// How it is after some calls, against how it was.
    ghost goes: { Self → Self → Type 0 };

    /// Goes on. If `sleeps`, the thread has nothing to do until it is woken.
    fn go_on<R: Wait>(&mut self, rt: &R, sleeps: bool)
        requires ready { ready self.old }
        ensures ready { ready self.new }
        ensures goes { goes self.old self.new };

    ghost goes_here: { (m : Self) → goes m m };

    ghost goes_through: { (a b c : Self) → goes a b → goes b c → goes a c };
}

/// The thread of one lane sleeps until it is woken, and lets others run while it waits for room.
#[derive(Drop)]
pub struct Parking<'a, B> {
    pub parkings: &'a Parkings<B>,
    pub lane: u32,
}

impl<'a, B: Bell> Meanwhile for Parking<'a, B> {
    ghost ready = { λ m. Unit {0} };

    ghost goes = { λ a b. Unit {0} };

    ghost goes_here = { λ m. tt };

    ghost goes_through = { λ a b c f g. tt };

    fn go_on<R: Wait>(&mut self, rt: &R, sleeps: bool) {
        if sleeps {
            self.parkings.rest_lane(rt, self.lane as usize);
            return;
        }
        thread::yield_now();
    }
}
