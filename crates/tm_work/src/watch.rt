//! What hears how far workers are, now and then.
//!
//! [`Watch::reached`] is told what a seat knows of its last step, so that no lock is taken for it (`manner`). How
//! it is shown, and that numbers may come late, is for who hears them to see to; of each turn a `gate` hears.

/// What hears how long a board's history is while workers make it longer. No contract says how often it does, or that
/// it does at all.
pub trait Watch {
    /// The board's history has come to this many steps. It is called in a worker's thread after some of its steps,
    /// without the desk's lock, so it may wait for another worker, and numbers of different workers may come in the
    /// other order.
    fn reached(&self, steps: u64);
}
