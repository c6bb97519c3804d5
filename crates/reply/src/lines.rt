//! Whole lines, each ended by a line feed.
ghost use Rattle.std.specs.Prelude.{◌≡◌, IfOk, Some, string_bytes};
ghost use Rattle.std.specs.List.{flat_map};
ghost use Rattle.reply.specs.Text.{call_line, outcome_line, step_lines, answer_line, hand_item, hands_line, standing_text, packet_text, later_packet, flight_line, mesh_line, cables_line};

use crate::text::EndingWord;
use crate::types::{Answer, OrRefused, Reply, TurnedDown, Wired};
use rules::{Outcome, Packet, Refusal};
use script::{Call, Question};
use std::alloc::{AllocError, Global};
use std::fmt;
use std::fmt::Write;

fn call_line(heap: Global, call: Call, reply: Result<Reply, Refusal>) -> Result<String, AllocError>
    ensures { IfOk result (λ s. string_bytes s ≡ call_line call reply) }
{
    let reply = OrRefused(reply);
    format!(in heap; "{call}: {reply}\n")
}

// An outcome is of another crate, so its text needs a type of this one.
#[derive(Clone, Copy)]
struct OutcomeLine(Outcome);

impl fmt::Display for OutcomeLine {
    ghost output = { λ x. Some (outcome_line x.0) };

    fn fmt<W: fmt::Write>(&self, f: &mut fmt::Formatter<W>) -> fmt::Result {
        let outcome = self.0;
        let number = outcome.number;
        let ending = EndingWord(outcome.ending);
        let node = outcome.node;
        let word = outcome.word;
        write!(f, "  packet {number} {ending} at {node} word {word}\n")
    }
}

/// A call with its reply or its refusal, and under it a line for each outcome.
pub fn call_lines(
    heap: Global,
    call: Call,
    reply: Result<Reply, Refusal>,
    outcomes: &[Outcome],
) -> Result<String, AllocError>
    ensures { IfOk result (λ s. string_bytes s ≡ step_lines call reply outcomes.now) }
{
    let mut text = call_line(heap, call, reply)?;
    for outcome in outcomes {
        let line = OutcomeLine(*outcome);
        write!(text, "{line}")?;
    }
    Ok(text)
}

/// A question with its answer or its refusal.
pub fn answer_line(
    heap: Global,
    question: Question,
    answer: Result<Answer, Refusal>,
) -> Result<String, AllocError>
    ensures { IfOk result (λ s. string_bytes s ≡ answer_line question answer) }
{
    let answer = OrRefused(answer);
    format!(in heap; "{question}: {answer}\n")
}

// A slice's text needs a type of this crate.
#[derive(Clone, Copy)]
struct HandItems<'a>(&'a [u8]);

impl<'a> fmt::Display for HandItems<'a> {
    ghost output = { λ x. Some (flat_map hand_item x.0.now) };

    fn fmt<W: fmt::Write>(&self, f: &mut fmt::Formatter<W>) -> fmt::Result {
        for node in self.0 {
            write!(f, " {node}")?;
        }
        Ok(())
    }
}

/// The nodes whose hands are up.
pub fn hands_line(heap: Global, nodes: &[u8]) -> Result<String, AllocError>
    ensures { IfOk result (λ s. string_bytes s ≡ hands_line nodes.now) }
{
    if nodes.is_empty() {
        return String::from_str(heap, "hands: none\n");
    }
    let items = HandItems(nodes);
    format!(in heap; "hands:{items}\n")
}

// An option is of another crate, so its text needs a type of this one.
#[derive(Clone, Copy)]
struct StandingText(Option<u8>);

impl fmt::Display for StandingText {
    ghost output = { λ x. Some (standing_text x.0) };

    fn fmt<W: fmt::Write>(&self, f: &mut fmt::Formatter<W>) -> fmt::Result {
        match self.0 {
            None => write!(f, "home"),
            Some(port) => write!(f, "port {port}"),
        }
    }
}

// A packet is of another crate, so its text needs a type of this one.
#[derive(Clone, Copy)]
struct PacketText(Packet);

impl fmt::Display for PacketText {
    ghost output = { λ x. Some (packet_text x.0) };

    fn fmt<W: fmt::Write>(&self, f: &mut fmt::Formatter<W>) -> fmt::Result {
        let number = self.0.number;
        let node = self.0.node;
        let standing = StandingText(self.0.standing);
        write!(f, "{number} at {node} {standing}")
    }
}

// A slice's text needs a type of this crate.
#[derive(Clone, Copy)]
struct LaterPackets<'a>(&'a [Packet]);

impl<'a> fmt::Display for LaterPackets<'a> {
    ghost output = { λ x. Some (flat_map later_packet x.0.now) };

    fn fmt<W: fmt::Write>(&self, f: &mut fmt::Formatter<W>) -> fmt::Result {
        for packet in self.0 {
            let packet = PacketText(*packet);
            write!(f, ", {packet}")?;
        }
        Ok(())
    }
}

/// The packets in flight.
pub fn flight_line(heap: Global, packets: &[Packet]) -> Result<String, AllocError>
    ensures { IfOk result (λ s. string_bytes s ≡ flight_line packets.now) }
{
    if packets.is_empty() {
        return String::from_str(heap, "flight: none\n");
    }
    let first = PacketText(packets[0]);
    let (_, rest) = packets.split_at(1);
    let others = LaterPackets(rest);
    format!(in heap; "flight: {first}{others}\n")
}

/// What became of a mesh of so many columns and rows: how many nodes it has, or why there is none.
pub fn mesh_line(
    heap: Global,
    columns: u32,
    rows: u32,
    nodes: Result<u8, TurnedDown>,
) -> Result<String, AllocError>
    ensures { IfOk result (λ s. string_bytes s ≡ mesh_line columns rows nodes) }
{
    let wired = Wired(nodes);
    format!(in heap; "mesh {columns} {rows}: {wired}\n")
}

/// What became of a wall file: how many nodes it has, or why there is none.
pub fn cables_line(heap: Global, nodes: Result<u8, TurnedDown>) -> Result<String, AllocError>
    ensures { IfOk result (λ s. string_bytes s ≡ cables_line nodes) }
{
    let wired = Wired(nodes);
    format!(in heap; "cables: {wired}\n")
}
