//! The trial of one file: its text, and the page of one node into memory of a random length.
use crate::tally::Tally;
use page::{PAGE_MAX, PageFault, WALL_MAX, page_of_file, pages};
use rules::Refusal;
use sample::Random;
use tray::Tray;

/// What the memory for a page is filled with before.
const BLANK: u8 = 0xa5;

// Notes what is printed of a file.
fn note_text(file: &[u8], tally: &mut Tally) {
    let mut memory = [BLANK; WALL_MAX];
    let mut tray = Tray::new(&mut memory);
    let answer = pages(file, &mut tray);
    let text = tray.as_slice();
    if let Ok(true) = answer {
        tally.accept(text.len());
    }
    tally.take(text);
}

// Notes the answer to a page call: its number, or 0 for a page that is given, and the page's length or the place in the
// file that is at fault.
fn note_answer(answer: Result<usize, PageFault>, tally: &mut Tally) {
    let (number, amount) = match answer {
        Ok(length) => {
            tally.given += 1;
            (0, length as u64)
        }
        Err(PageFault::File(fault)) => {
            tally.refuse(fault.number(), fault.place());
            (fault.number(), u64::from(fault.place()))
        }
        Err(PageFault::Call(Refusal::NodeOutOfRange)) => {
            tally.no_node += 1;
            (Refusal::NodeOutOfRange.number(), 0)
        }
        Err(PageFault::Call(refusal)) => {
            tally.no_room += 1;
            (refusal.number(), 0)
        }
    };
    tally.take(&[number]);
    tally.take(&amount.to_be_bytes());
}

// Asks for the page of a random node, to be put into a tray over a front part of the memory.
fn ask_page(file: &[u8], memory: &mut [u8], random: &mut Random) -> Result<usize, PageFault> {
    let node = random.below(64);
    let room = random.under(PAGE_MAX + 1).min(memory.len());
    let mut tray = Tray::new(&mut memory[0..room]);
    page_of_file(file, node, &mut tray)
}

// Notes the answer to a page call, and what then stands in the memory.
fn note_page(file: &[u8], random: &mut Random, tally: &mut Tally) {
    let mut memory = [BLANK; PAGE_MAX];
    let answer = ask_page(file, &mut memory, random);
    note_answer(answer, tally);
    if answer.is_err() && memory != [BLANK; PAGE_MAX] {
        tally.altered += 1;
    }
    tally.take(&memory);
}

/// Puts a file through both calls, and notes their answers.
pub(crate) fn trial(file: &[u8], random: &mut Random, tally: &mut Tally) {
    note_text(file, tally);
    note_page(file, random, tally);
}
