//! A wall file with the ports that are taken, so that no port is cabled twice.
use crate::file::WallFile;
use wiring::Cable;

/// A file, and for each node and port whether a cable has it.
#[derive(Drop)]
pub(crate) struct Draft {
    pub(crate) file: WallFile,
    taken: [[bool; 4]; 64],
}

impl Draft {
    /// A file of so many nodes, with every port free.
    pub(crate) fn new(nodes: u8) -> Draft {
        Draft {
            file: WallFile::new(nodes),
            taken: [[false; 4]; 64],
        }
    }

    // Whether a port is free. A port out of range is not.
    fn is_free(&self, (node, port): (u8, u8)) -> bool {
        self.taken
            .get(usize::from(node))
            .and_then(|ports| ports.get(usize::from(port)))
            .is_some_and(|taken| !*taken)
    }

    // Takes a port.
    fn take(&mut self, (node, port): (u8, u8)) {
        if let Some(ports) = self.taken.get_mut(usize::from(node)) {
            if let Some(taken) = ports.get_mut(usize::from(port)) {
                *taken = true;
            }
        }
    }

    /// Lays a cable where both ports are free and on two nodes; else nothing happens.
    pub(crate) fn lay(&mut self, start: (u8, u8), end: (u8, u8)) {
        if (start.0 != end.0) && self.is_free(start) && self.is_free(end) {
            self.take(start);
            self.take(end);
            self.file.add(Cable { start, end });
        }
    }
}
