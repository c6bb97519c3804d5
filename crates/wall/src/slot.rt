//! A slot on the plain part of a wall.
ghost use Rattle.std.specs.Prelude.{◌≡◌, ◌+◌, ◌%◌, ◌<◌, ◌≤◌};
ghost use Rattle.wiring.specs.Layout.{Layout};
ghost use Rattle.rules.specs.Slot.{slot};
ghost use Rattle.flood.specs.View.{wired};
ghost use Rattle.wall.specs.View.{core_state, state_of};

use crate::inner::Core;
use flood::Ends;
use rules::SlotAnswer;

// The owner of the slot after this one.
fn following(owner: u8, count: u8) -> u8
    requires { (owner < 64) × (1 ≤ count) }
    ensures { result ≡ (owner + 1) % count }
{
    (owner + 1) % count
}

impl Core {
    // Sets the node count of the board. A type that ties it to the wiring's would need W: Wiring
    // wherever a wall's type is named; so each call of a wall sets it.
    pub(crate) fn fit(&mut self, count: u8)
        ensures fitted { 1 ≤ count → count ≤ 64 → self.new.board.count ≡ count }
        ensures state { (layout : Layout) → state_of layout self.new ≡ state_of layout self.old }
    {
        self.board.fit(count);
    }

    // The slot of the next owner, over the cables that the ends spell.
    pub(crate) fn slot(&mut self, ends: &Ends) -> SlotAnswer
        ensures answer { result ≡ (slot (wired self.old.board.count ends.now.at) (core_state self.old)).answer }
        ensures after { core_state self.new ≡ (slot (wired self.old.board.count ends.now.at) (core_state self.old)).after }
        ensures count { self.new.board.count ≡ self.old.board.count }
    {
        let owner = self.owner;
        let answer = self.board.begin_slot(ends, owner);
        self.flight.send_home(&self.board);
        self.board.tick();
        self.owner = following(owner, self.board.count);
        answer
    }
}
