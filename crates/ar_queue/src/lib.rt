//! The queue from which workers take the numbers of a bundle, and the workers, side by side.
//!
//! One pass feeds the [`Queue`]: it puts the numbers in their order, then an end mark for each worker.
//! It splits off a pass for each worker, and joins these again. `specs/Rule` says what is true of the
//! queue and of all passes at every moment, whatever the threads do, and what each kind of step does.
//! Where all passes are joined and one of them has met an end mark, each number of the bundle was taken
//! by one of them, just once ([`learn`]).
//!
//! [`in_threads`] has a worker for each [`Desk`] take numbers, each in a thread of its own: each desk is
//! given just the numbers that its worker's pass took (`specs/Workers`). A caller sees and may hold what
//! workers do by a [`Gate`].
//!
//! - [`queue`]: the queue, its rule, and the kinds of step; [`passes`]: what passes do; `waiting`: how the
//!   feeder waits for a free slot
//! - `side_by_side`: starting, feeding and joining workers; `worker`: what one worker does; `feed`: numbers
//!   and end marks; `desk`: what a worker does with a number; `gate`: gates
#![tactic(auto)]

mod desk;
mod feed;
mod gate;
pub mod passes;
pub mod queue;
mod side_by_side;
mod waiting;
mod worker;

pub use desk::Desk;
pub use gate::{FreeGate, Gate};
pub use passes::{PLACES, join, learn, open, put, split, take};
pub use queue::{Item, Queue, View};
pub use side_by_side::{Gathered, Unfinished, in_threads};
pub use worker::QueueName;
