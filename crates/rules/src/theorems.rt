//! The theorems of a wall, each the contract of a function that does nothing: the crate is proved
//! only if they hold. specs/Laws.antt states them.
ghost use Rattle.rules.specs.Laws.{PromiseLaw, DistanceLaw, RootLaw, FloodLaw, CountsLaw};
ghost use Rattle.rules.specs.Walls.{WorkedWalls};
ghost use Rattle.rules.specs.Inhabited.{Inhabited};

/// Over every sound wiring, every state that a run of calls from power-up can reach keeps the
/// promise.
pub fn promise_holds()
    ensures { PromiseLaw }
{}

/// A node's distance from a root is the least number of live cables between them, and it has none
/// exactly where no way over live cables leads.
pub fn distance_is_least()
    ensures { DistanceLaw }
{}

/// A root's broadcast enlists exactly the nodes joined to it, and marks a live port up exactly when
/// the neighbour's order is lower.
pub fn root_marks_by_order()
    ensures { RootLaw }
{}

/// An entry's ports are those that got a flag in the first cycle that brought the node one, and its
/// count is that cycle.
pub fn entries_are_first_flags()
    ensures { FloodLaw }
{}

/// The counts that a step answers add up to the packets in flight before it.
pub fn counts_add_up()
    ensures { CountsLaw }
{}

/// The twelve worked walls are as the rules compute them.
pub fn worked_walls_hold()
    ensures { WorkedWalls }
{}

/// The laws are about something: there are sound wirings, calm walls and others, quiet runs that
/// are long enough, runs that deliver, and circles where marks are wrong.
pub fn laws_are_inhabited()
    ensures { Inhabited }
{}
