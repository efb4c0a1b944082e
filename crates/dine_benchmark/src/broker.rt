//! A broker: the requests of many clients, who wait for their turn, and the broker that comes up again by its journal.

use crate::commands::{LARGEST, SERVE, SERVE_NUMBERED};
use crate::digest::Digest;
use crate::dinners::{Form, Habits, MEALS, Until};
use crate::graph::Shape;
use crate::inputs::{Asked, Inputs};
use crate::job::{self, Machine};
use std::alloc::AllocError;

// Clients who wait, ask now and then, and come and go.
const CLIENTS: Habits = Habits {
    leaves: 64,
    separates: 128,
    asks: 24,
    withdraws: 64,
    ..MEALS
};

// Clients of whom most want to eat at any time.
const EAGER: Habits = Habits {
    leaves: 200,
    hunger: 4,
    ..CLIENTS
};

// Clients who don't wait but ask to begin again and again.
const IMPATIENT: Habits = Habits {
    polls: 3,
    withdraws: 32,
    ..CLIENTS
};

// Few clients, some, many, and some who number their requests.
const BROKERS: [(Form, Shape, Habits); 4] = [
    (Form::Requests, Shape::Shared(60, 24, 65_535), IMPATIENT),
    (Form::Requests, Shape::Shared(300, 60, 65_535), CLIENTS),
    (Form::Requests, Shape::Shared(1500, 300, 65_535), EAGER),
    (Form::Numbered, Shape::Shared(200, 50, 65_535), CLIENTS),
];

/// Serves clients over graphs of several sizes, and replays the journals of what was served.
pub fn run(rt: &impl Machine, asked: Asked, digest: &mut Digest) -> Result<(), AllocError> {
    let mut inputs = Inputs::new(rt.alloc(), LARGEST, asked.seed);
    for (form, shape, habits) in BROKERS.iter() {
        let mut clients = inputs.open(*form, *shape, *habits)?;
        clients.go_on(Until::Lines(asked.lines))?;
        let words: &[&str] = if *form == Form::Numbered {
            &SERVE_NUMBERED
        } else {
            &SERVE
        };
        job::serve(rt, words, clients.text.as_slice(), digest)?;
    }
    Ok(())
}
