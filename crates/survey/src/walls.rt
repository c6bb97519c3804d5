//! The walls of the survey: 64 nodes and 112 cables, as a mesh or at random.
use anyhow::anyhow;
use sample::{Partner, Plan, Random, WallFile};
use wiring::{CableList, Mesh};

/// Where the patterns of a table come from: two sources, neither the lack of the other.
#[derive(Clone, Copy)]
pub enum Walls {
    /// One wall for all.
    Mesh(CableList),
    /// A random cable list for each pattern, with as many nodes and cables as the mesh.
    Lists,
}

const LISTS: Plan = Plan {
    nodes: 64,
    partner: Partner::Any,
    tries: 8192,
    most: 112,
};

fn read(file: &WallFile) -> CableList {
    let mut list = CableList::new();
    // What sample makes is a good file.
    let _ = list.read(file.as_slice());
    list
}

impl Walls {
    /// The mesh of eight columns and eight rows.
    pub(crate) fn mesh() -> anyhow::Result<Walls> {
        let mesh = Mesh::new(8, 8).map_err(|_| anyhow!("a mesh was refused"))?;
        Ok(Walls::Mesh(read(&WallFile::of(&mesh))))
    }

    /// The wall of the next pattern.
    pub(crate) fn next(&self, random: &mut Random) -> CableList {
        match *self {
            Walls::Mesh(list) => list,
            Walls::Lists => read(&LISTS.make(random)),
        }
    }

    /// What the tables call them.
    pub(crate) fn name(&self) -> &'static str {
        match *self {
            Walls::Mesh(_) => "8x8 mesh",
            Walls::Lists => "random cable lists with 64 nodes and 112 cables",
        }
    }
}
