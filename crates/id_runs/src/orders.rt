//! The order of a run: what the accounts of elements and the stamps in their records say of all events together.

ghost use Rattle.id_runs.specs.Orders.{OrdersAreRuns};

/// *Orders are runs*: where the records of the elements lead to their states and account for every message, all
/// events by stamp, and at one stamp by element, are a legal list of events, which ends in these states with what is
/// left in flight, and it is the list of a run of deliveries (docs/MACHINE.md, "Runs"). Takes no memory.
pub fn orders_are_runs()
    ensures { OrdersAreRuns }
{}
