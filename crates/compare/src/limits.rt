//! The limits of the numbers: the last value that is accepted, and the answer to the next one.
use arrayvec::ArrayVec;
use chooser::LowestPort;
use fault::WallFault;
use rules::Refusal;
use sample::WallFile;
use std::{fmt, io};
use wall::Wall;
use wiring::{Cable, CableList, Mesh};

type PairWall = Wall<Mesh, LowestPort>;

// Why a file or a call was refused. As page's PageFault; compare stands on no page.
#[derive(Clone, Copy)]
enum Refused {
    File(WallFault),
    Call(Refusal),
}

impl From<WallFault> for Refused {
    fn from(fault: WallFault) -> Refused {
        Refused::File(fault)
    }
}

impl From<Refusal> for Refused {
    fn from(refusal: Refusal) -> Refused {
        Refused::Call(refusal)
    }
}

// What became of a file or a call.
#[derive(Clone, Copy)]
struct Answer(Result<(), Refused>);

impl fmt::Display for Answer {
    fn fmt<W: fmt::Write>(&self, f: &mut fmt::Formatter<W>) -> fmt::Result {
        let number = match self.0 {
            Ok(()) => return write!(f, "accepted"),
            Err(Refused::File(fault)) => fault.number(),
            Err(Refused::Call(refusal)) => refusal.number(),
        };
        write!(f, "refused by {number}")
    }
}

fn read(bytes: &[u8]) -> Answer {
    let mut list = CableList::new();
    Answer(list.read(bytes).map_err(|fault| Refused::from(fault)))
}

// A file of two nodes with one cable, at this port of the first.
fn one_cable(port: u8) -> WallFile {
    let mut file = WallFile::new(2);
    file.add(Cable {
        start: (0, port),
        end: (1, 0),
    });
    file
}

// 64 nodes in a ring, each with two cables to the next: 128 cables, no port free.
fn full_ring() -> WallFile {
    let mut file = WallFile::new(64);
    for node in 0..64u8 {
        let next = (node + 1) % 64;
        file.add(Cable {
            start: (node, 0),
            end: (next, 2),
        });
        file.add(Cable {
            start: (node, 1),
            end: (next, 3),
        });
    }
    file
}

// The full ring with one cable more.
fn read_past_full_ring() -> Answer {
    let mut bytes = ArrayVec::<u8, 523>::new();
    let _ = bytes.try_extend_from_slice(full_ring().as_slice());
    let _ = bytes.try_extend_from_slice(&[0; 4]);
    if let Some(count) = bytes.get_mut(6) {
        *count = 129;
    }
    read(bytes.as_slice())
}

// Two nodes with a cable between them, calm.
fn pair_wall() -> Option<PairWall> {
    let mesh = Mesh::new(2, 1).ok()?;
    let mut wall = Wall::power_up(mesh, LowestPort::new());
    for _ in 0..3u8 {
        let _ = wall.slot();
    }
    Some(wall)
}

fn post(wall: &mut PairWall) -> Answer {
    Answer(
        wall.post(0, 1, 0)
            .map(|_| ())
            .map_err(|refusal| Refused::from(refusal)),
    )
}

fn cut(wall: &mut PairWall, port: u8) -> Answer {
    Answer(wall.cut(0, port).map_err(|refusal| Refused::from(refusal)))
}

// Posts so many packets, and says how many were accepted.
fn post_many(wall: &mut PairWall, times: u16) -> usize {
    (0..times).filter(|_| post(wall).0.is_ok()).count()
}

fn print_files(rt: &HostRuntime) -> io::Result<()> {
    let last = read(WallFile::new(64).as_slice());
    let next = read(WallFile::new(65).as_slice());
    println!(rt; "a file of 64 nodes: {last}; of 65: {next}")?;
    let last = read(full_ring().as_slice());
    let next = read_past_full_ring();
    println!(rt; "a file of 128 cables: {last}; of 129: {next}")?;
    let last = read(one_cable(3).as_slice());
    let next = read(one_cable(4).as_slice());
    println!(rt; "port 3 in a file: {last}; port 4: {next}")
}

fn print_calls(rt: &HostRuntime, wall: &mut PairWall) -> io::Result<()> {
    let accepted = post_many(wall, 256);
    let next = post(wall);
    println!(rt; "256 posts: {accepted} accepted; the next: {next}")?;
    let four = cut(wall, 4);
    let three = cut(wall, 3);
    let one = cut(wall, 1);
    println!(rt; "a cut at port 1: {one}; at port 3, with no cable: {three}; at port 4: {four}")
}

/// Prints the answers at the limits.
pub(crate) fn print_limits(rt: &HostRuntime) -> io::Result<()> {
    println!(rt; "limits:")?;
    print_files(rt)?;
    match pair_wall() {
        Some(mut wall) => print_calls(rt, &mut wall),
        None => Ok(()),
    }
}
