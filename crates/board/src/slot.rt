//! A slot: its owner broadcasts as root or member or is silent, and then every recovery is one
//! slot nearer its end.
ghost use Rattle.std.specs.Prelude.{◌≡◌, ℕ, ◌<◌, ◌≤◌, Bool, true, false, [], map, length, is_some, None, if◌then◌else◌, slice_index_or};
ghost use Rattle.std.specs.Fn.{FnReturnsAt};
ghost use Rattle.rules.specs.declared.Mark.TheVariants.{Unmarked, Down};
ghost use Rattle.rules.specs.Ports.{table};
ghost use Rattle.rules.specs.State.{mark_of, entry_of};
ghost use Rattle.rules.specs.Root.{open_marks, distances, rooted};
ghost use Rattle.rules.specs.Slot.{is_nothing, heard, tick, broadcast as flood-of};
ghost use Rattle.flood.specs.View.{wired, marks_view, cells_view};
ghost use Rattle.board.specs.Begun.{begun};
ghost use Rattle.board.specs.declared.types.Node.{Node};
ghost use Rattle.board.specs.View.{Becomes, nodes_view, rooted_node};

use crate::rows::{act, enlisted_record, inform_record, tick_record};
use crate::types::{Board, Node};
use flood::{Cell, Ends, Marks, Wave, broadcast};
use rules::{Act, Mark, SlotAnswer};

// What a slot is answered.
fn answer(owner: u8, act: Act, cycles: u8) -> SlotAnswer
    ensures { result ≡ record { owner = owner; act = act; cycles = cycles } }
{
    SlotAnswer { owner, act, cycles }
}

impl Board {
    // What a question has to say of each node's record, and `none` past the last node.
    fn each<T: Copy, F: Fn(&Node) -> T>(&self, none: T, question: F) -> [T; 64]
        requires { F.IsAlwaysCallable question }
        ensures below { (k : ℕ) (d : Node) → k < self.now.count → FnReturnsAt F.Fn question (slice_index_or self.now.nodes k d) (slice_index_or result k none) }
        ensures past { (k : ℕ) → self.now.count ≤ k → slice_index_or result k none ≡ none }
    {
        let mut all = [none; 64];
        // By number: the record is read and the answer written at the same place.
        for node in 0..self.count {
            all[node as usize] = question(&self.nodes[node as usize]);
        }
        all
    }

    // The marks of all ports, as the nodes have them.
    fn own_marks(&self) -> Marks
        ensures { marks_view result ≡ mark_of (nodes_view self.now) }
    {
        self.each(
            [Mark::Unmarked; 4],
            |held: &Node| -> [Mark; 4]
                ensures { result ≡ held.now.marks }
            { held.marks },
        )
    }

    // The marks by which a flag crosses every live cable.
    fn open_marks(&self) -> Marks
        ensures { marks_view result ≡ open_marks (nodes_view self.now) }
    {
        self.each(
            [Mark::Unmarked; 4],
            |held: &Node| -> [Mark; 4]
                ensures { (p : ℕ) → slice_index_or result p Unmarked ≡ (if slice_index_or held.now.live p false then Down else Unmarked) }
            {
                held.live
                    .map(|live| if live { Mark::Down } else { Mark::Unmarked })
            },
        )
    }

    // The nodes that have an entry for the owner from before.
    fn deaf_to(&self, owner: u8) -> [bool; 64]
        requires { owner < self.now.count }
        ensures { (n : ℕ) → slice_index_or result n false ≡ (if is_nothing (entry_of (nodes_view self.now) n owner) then false else true) }
    {
        self.each(
            false,
            |held: &Node| -> bool
                requires { owner < 64 }
                ensures { result ≡ is_some (slice_index_or held.now.row owner None) }
            { held.row[owner as usize].is_some() },
        )
    }

    /// Every recovery is one slot nearer its end; at its end the nodes serve.
    pub fn tick(&mut self)
        ensures board { Becomes self.old self.new (map tick (nodes_view self.old)) }
        // What stands past the count is left over, and stays.
        ensures past { (k : ℕ) (d : Node) → self.old.count ≤ k → slice_index_or self.new.nodes k d ≡ slice_index_or self.old.nodes k d }
    {
        for node in 0..self.count {
            tick_record(&mut self.nodes[node as usize]);
        }
    }

    // Everyone that the root's flag reaches starts a recovery.
    fn enlist(&mut self, ends: &Ends, cells: &[Cell; 64], root: u8)
        ensures { Becomes self.old self.new (table self.old.count (rooted_node (wired self.old.count ends.now.at) (nodes_view self.old) (cells_view self.old.count cells.now) root)) }
    {
        // A copy: each mark is said of the board from before.
        let before = *self;
        for node in 0..self.count {
            self.nodes[node as usize] = enlisted_record(&before, ends, cells, root, node);
        }
    }

    // Everyone that the owner's flag reached has an entry for the owner.
    fn inform(&mut self, owner: u8, cells: &[Cell; 64])
        requires { owner < self.old.count }
        ensures board { Becomes self.old self.new (heard (wired self.old.count []) (nodes_view self.old) owner (cells_view self.old.count cells.now)) }
        // What stands past the count is left over, and stays.
        ensures past { (k : ℕ) (d : Node) → self.old.count ≤ k → slice_index_or self.new.nodes k d ≡ slice_index_or self.old.nodes k d }
    {
        for node in 0..self.count {
            inform_record(&mut self.nodes[node as usize], owner, cells[node as usize]);
        }
    }

    // How far each node is from a root over live cables.
    fn reach(&self, ends: &Ends, root: u8) -> [Cell; 64]
        ensures { cells_view self.now.count result ≡ distances (wired self.now.count ends.now.at) (nodes_view self.now) root }
    {
        let wave = Wave {
            count: self.count,
            ends: *ends,
            marks: self.open_marks(),
            owner: root,
        };
        broadcast(&wave, &[false; 64]).cells
    }

    // A root's slot begins: everyone joined to it starts a recovery with fresh marks.
    fn make_root(&mut self, ends: &Ends, root: u8)
        ensures { Becomes self.old self.new (rooted (wired self.old.count ends.now.at) (nodes_view self.old) root) }
    {
        let cells = self.reach(ends, root);
        self.enlist(ends, &cells, root);
    }

    // The owner's flag goes out over the marks that the nodes have; the answer counts its cycles.
    fn speak(&mut self, ends: &Ends, owner: u8) -> u8
        requires { owner < self.old.count }
        ensures cycles { result ≡ (flood-of (wired self.old.count ends.now.at) (nodes_view self.old) owner).cycles }
        ensures board { Becomes self.old self.new (heard (wired self.old.count ends.now.at) (nodes_view self.old) owner (flood-of (wired self.old.count ends.now.at) (nodes_view self.old) owner).cells) }
    {
        let wave = Wave {
            count: self.count,
            ends: *ends,
            marks: self.own_marks(),
            owner,
        };
        let deaf = self.deaf_to(owner);
        let flood = broadcast(&wave, &deaf);
        self.inform(owner, &flood.cells);
        flood.cycles
    }

    /// The slot of an owner up to its end: the owner becomes root and broadcasts, broadcasts as
    /// member, or is silent. `tick` ends the slot.
    pub fn begin_slot(&mut self, ends: &Ends, owner: u8) -> SlotAnswer
        ensures answer { result ≡ (begun (wired self.old.count ends.now.at) (nodes_view self.old) owner).answer }
        ensures nodes { nodes_view self.new ≡ (begun (wired self.old.count ends.now.at) (nodes_view self.old) owner).nodes }
        // count by itself, since callers cite it beside the other clauses.
        ensures count { self.new.count ≡ self.old.count }
    {
        if owner >= self.count {
            return answer(owner, Act::Silent, 0);
        }
        let mode = self.nodes[owner as usize].mode;
        let hand = self.nodes[owner as usize].hand;
        let act = act(mode, hand);
        let cycles = match act {
            Act::Silent => 0,
            Act::Root => {
                self.make_root(ends, owner);
                self.speak(ends, owner)
            }
            Act::Member => self.speak(ends, owner),
        };
        answer(owner, act, cycles)
    }
}
