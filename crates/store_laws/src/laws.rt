//! The law, in the words of `specs/Pending.antt`.

ghost use Rattle.store_laws.specs.Pending.{StoresStand};

/// The stores of each core that are pending are those of the steps that are told as having made them, in their order:
/// where that is so, it is so behind each step, under an event or under none, of which it was told whether its own
/// store pends. So it is from a run's begin on, where no store is pending and no step was told.
pub fn stores_stand()
    ensures { StoresStand }
{}
