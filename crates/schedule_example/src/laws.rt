//! The core of the example is one that `order` takes.
ghost use Rattle.schedule_example.specs.Example.{TurnedCanBeOrdered};

/// A core whose second equation defines what the first one reads is one that `order` takes, and is not
/// in order yet.
pub fn order_laws()
    ensures { TurnedCanBeOrdered }
{}
