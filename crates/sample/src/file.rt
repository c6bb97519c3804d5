//! Wall files while they are written.
ghost use Rattle.std.specs.Prelude.{◌≡◌, ◌+◌, ◌*◌, ◌<◌, ◌≤◌, length, take};
ghost use Rattle.sample.specs.Written.{bare_file, cables_in, with_cable};

use wiring::{Cable, Wiring};

/// The length of the longest file: a header of seven bytes and 128 cables of four.
const MOST: usize = 519;

/// Where a file counts its cables.
const CABLE_COUNT: usize = 6;

/// A wall file: its header, and its cables so far.
#[derive(Clone, Copy)]
pub struct WallFile {
    bytes: [u8; MOST],
    ghost few: { cables_in bytes ≤ 128 },
    ghost long: { length bytes ≡ 519 },
}

impl WallFile {
    /// A file of so many nodes and no cable.
    pub fn new(nodes: u8) -> WallFile
        ensures bytes { result.bytes ≡ bare_file nodes }
        ensures cables { cables_in result.bytes ≡ 0 }
    {
        let mut bytes = [0; MOST];
        bytes[0] = 0x54;
        bytes[1] = 0x57;
        bytes[2] = 0x4c;
        bytes[4] = 1;
        bytes[5] = nodes;
        WallFile { bytes }
    }

    /// Writes one cable more. Past 128 cables nothing is written.
    pub fn add(&mut self, cable: Cable)
        ensures more { cables_in self.old.bytes < 128 → (cables_in self.new.bytes ≡ cables_in self.old.bytes + 1) × (self.new.bytes ≡ with_cable self.old.bytes (cables_in self.old.bytes) cable) }
        ensures full { 128 ≤ cables_in self.old.bytes → self.new ≡ self.old }
    {
        let cables = self.cable_count();
        if cables >= 128 {
            return;
        }
        let at = 7 + 4 * usize::from(cables);
        self.bytes[at] = cable.start.0;
        self.bytes[at + 1] = cable.start.1;
        self.bytes[at + 2] = cable.end.0;
        self.bytes[at + 3] = cable.end.1;
        self.bytes[CABLE_COUNT] = cables + 1;
    }

    /// How many cables the file has.
    pub fn cable_count(&self) -> u8
        ensures { result ≡ cables_in self.now.bytes }
    {
        self.bytes[CABLE_COUNT]
    }

    /// The bytes of the file.
    pub fn as_slice(&self) -> &[u8]
        ensures { result.now ≡ take (7 + 4 * cables_in self.now.bytes) self.now.bytes }
    {
        &self.bytes[..7 + 4 * usize::from(self.bytes[CABLE_COUNT])]
    }

    /// The file that spells a wiring.
    pub fn of<W: Wiring>(wiring: &W) -> WallFile {
        let mut file = WallFile::new(wiring.node_count());
        for node in 0..wiring.node_count() {
            for port in 0..4 {
                if let Some(end) = wiring.far_end(node, port) {
                    if node < end.0 {
                        let start = (node, port);
                        file.add(Cable { start, end });
                    }
                }
            }
        }
        file
    }
}
