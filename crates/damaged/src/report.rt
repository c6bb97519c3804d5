//! What is printed.
use crate::tally::Tally;
use std::io;

fn print_refused(rt: &HostRuntime, tally: &Tally) -> io::Result<()> {
    for (number, refused) in (1..=10u8).zip(&tally.refused) {
        let files = refused.files;
        let places = refused.places;
        println!(rt; "refused by {number}: {files} files, sum of places {places}")?;
    }
    Ok(())
}

/// Prints the counts and the hash.
pub(crate) fn print_tally(rt: &HostRuntime, files: u32, tally: &Tally) -> io::Result<()> {
    let accepted = tally.accepted;
    let text = tally.text;
    let given = tally.given;
    let no_node = tally.no_node;
    let no_room = tally.no_room;
    let altered = tally.altered;
    let fewest = tally.fewest();
    let hash = tally.hash;
    println!(rt; "damaged files: {files}")?;
    println!(rt; "accepted: {accepted} files, {text} bytes of text")?;
    print_refused(rt, tally)?;
    println!(rt; "the rarest of these answers: {fewest} files")?;
    println!(rt;
        "pages of one node: {given} given, {no_node} refused by 12, {no_room} refused by 15"
    )?;
    println!(rt; "refusals that altered memory: {altered}")?;
    println!(rt; "hash of all answers: {hash}")
}
