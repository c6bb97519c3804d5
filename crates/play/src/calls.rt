//! A call of a script, made on a wall.
ghost use Rattle.std.specs.Prelude.{◌≡◌, ◌≤◌};
ghost use Rattle.traffic.specs.Posting.{post_reply};
ghost use Rattle.wall.specs.View.{state_of, done_reply};
ghost use Rattle.play.specs.Makes.{Makes};
ghost use Rattle.play.specs.Performs.{Performs, told};
ghost use Rattle.play.specs.Places.{places_of};

use chooser::Chooser;
use reply::{Reply, call_lines};
use rules::{Ending, Outcome, Refusal};
use script::{Call, as_byte};
use std::alloc::{AllocError, Global};
use tray::Tray;
use wall::Wall;
use wiring::Wiring;

fn done(answer: Result<(), Refusal>) -> Result<Reply, Refusal>
    ensures { told result ≡ done_reply answer }
{
    answer.map(|()| Reply::Done)
}

fn numbered(answer: Result<u32, Refusal>) -> Result<Reply, Refusal>
    ensures { told result ≡ post_reply answer }
{
    answer.map(Reply::Numbered)
}

/// Makes a call on a wall. A step puts its outcomes into the tray; the others leave it alone.
// No Model of Wall: its view could not name a member of a bound.
pub fn perform<W: Wiring, C: Chooser>(
    wall: &mut Wall<W, C>,
    call: Call,
    tray: &mut Tray<Outcome>,
) -> Result<Reply, Refusal>
    ensures performs { Performs C.Chooser.picks (W.Wiring.layout wall.old.wiring) call result (state_of (W.Wiring.layout wall.old.wiring) wall.old.core) tray.old wall.old.chooser (state_of (W.Wiring.layout wall.new.wiring) wall.new.core) tray.new wall.new.chooser }
    ensures wiring { wall.new.wiring ≡ wall.old.wiring }
{
    match call {
        Call::Cut { node, port } => done(wall.cut(as_byte(node), as_byte(port))),
        Call::Hand { node } => done(wall.hand(as_byte(node))),
        Call::Slot => Ok(Reply::Slotted(wall.slot())),
        Call::Post {
            source,
            destination,
            word,
        } => numbered(wall.post(as_byte(source), as_byte(destination), word)),
        Call::Step { .. } => wall.step(tray).map(Reply::Stepped),
    }
}

/// The most packets that a wall has in flight, so the most places that a step's tray needs.
const MOST: usize = 256;

/// What a place of a tray holds before it is used. A tray fills memory that is lent to it, so its
/// places hold something from the start.
const UNUSED: Outcome = Outcome {
    number: 0,
    ending: Ending::Delivered,
    node: 0,
    word: 0,
};

// The places of a call's tray.
fn places(call: Call) -> usize
    ensures value { result ≡ places_of call }
    ensures bound { result ≤ 256 }
{
    match call {
        Call::Step { free } => (free as usize).min(MOST),
        _ => 0,
    }
}

/// Makes a call on a wall, and the lines that are printed of it: the call with its reply, and under
/// a step its outcomes.
pub fn make<W: Wiring, C: Chooser>(
    heap: Global,
    wall: &mut Wall<W, C>,
    call: Call,
) -> Result<String, AllocError>
    ensures makes { Makes C.Chooser.picks (W.Wiring.layout wall.old.wiring) call (state_of (W.Wiring.layout wall.old.wiring) wall.old.core) wall.old.chooser (state_of (W.Wiring.layout wall.new.wiring) wall.new.core) wall.new.chooser result }
    ensures wiring { wall.new.wiring ≡ wall.old.wiring }
{
    let mut outcomes = [UNUSED; MOST];
    let mut tray = Tray::new(&mut outcomes[0..places(call)]);
    let reply = perform(wall, call, &mut tray);
    call_lines(heap, call, reply, tray.as_slice())
}
