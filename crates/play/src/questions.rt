//! A question of a script, put to a wall.
ghost use Rattle.std.specs.Prelude.{◌≡◌, IfOk, string_bytes};
ghost use Rattle.wall.specs.View.{state_of};
ghost use Rattle.play.specs.Asks.{hands_below, Asks};

use chooser::Chooser;
use reply::{Answer, answer_line, flight_line, hands_line};
use rules::Packet;
use script::{Question, as_byte};
use std::alloc::{AllocError, Global};
use wall::Wall;
use wiring::Wiring;

// The nodes whose hands are up, by rising number.
fn hands<W: Wiring, C: Chooser>(heap: Global, wall: &Wall<W, C>) -> Result<Vec<u8>, AllocError>
    ensures { IfOk result (λ v. v.items ≡ hands_below (state_of (W.Wiring.layout wall.now.wiring) wall.now.core).nodes (W.Wiring.layout wall.now.wiring).count) }
{
    (0..wall.node_count())
        .filter(|node| wall.is_hand_up(*node).unwrap_or(false))
        .collect(heap)
}

// The packets in flight, by rising number.
fn packets<W: Wiring, C: Chooser>(
    heap: Global,
    wall: &Wall<W, C>,
) -> Result<Vec<Packet>, AllocError>
    ensures { IfOk result (λ v. v.items ≡ (state_of (W.Wiring.layout wall.now.wiring) wall.now.core).packets) }
{
    (0..wall.in_flight())
        .filter_map(|i| wall.packet(i))
        .collect(heap)
}

/// The line that answers a question to a wall.
pub fn answer<W: Wiring, C: Chooser>(
    heap: Global,
    wall: &Wall<W, C>,
    question: Question,
) -> Result<String, AllocError>
    ensures { IfOk result (λ t. Asks (W.Wiring.layout wall.now.wiring) (state_of (W.Wiring.layout wall.now.wiring) wall.now.core) question (string_bytes t)) }
{
    match question {
        Question::Mode { node } => {
            answer_line(heap, question, wall.mode(as_byte(node)).map(Answer::Mode))
        }
        Question::Entry { node, destination } => {
            let entry = wall.entry(as_byte(node), as_byte(destination));
            answer_line(heap, question, entry.map(Answer::Entry))
        }
        Question::Marks { node } => {
            answer_line(heap, question, wall.marks(as_byte(node)).map(Answer::Marks))
        }
        Question::Calm => answer_line(heap, question, Ok(Answer::Calm(wall.calm()))),
        Question::Hands => {
            let nodes = hands(heap, wall)?;
            hands_line(heap, nodes.as_slice())
        }
        Question::Flight => {
            let flying = packets(heap, wall)?;
            flight_line(heap, flying.as_slice())
        }
    }
}
