//! The mesh: nodes in rows and columns, each cabled to its neighbours. specs/Grid.antt says where
//! each port leads.
ghost use Rattle.std.specs.Prelude.{◌≡◌, ◌+◌, ◌*◌, ◌<◌, ◌≤◌, MatchResult};
ghost use Rattle.fault.specs.declared.WallFault.TheVariants.{MeshSide};
ghost use Rattle.wiring.specs.Grid.{grid, Sides};
ghost use Rattle.wiring.specs.GridLemmas.{grid_sound};

use crate::Wiring;
use fault::WallFault;

/// A mesh of 1 to 8 columns and 1 to 8 rows. Node `n` stands in row `n / columns` and column
/// `n % columns`; ports 0 to 3 lead north, east, south and west.
#[derive(Clone, Copy)]
pub struct Mesh {
    columns: u8,
    rows: u8,
    ghost some_columns: { 1 ≤ columns },
    ghost few_columns: { columns ≤ 8 },
    ghost some_rows: { 1 ≤ rows },
    ghost few_rows: { rows ≤ 8 },
}

impl Mesh {
    /// A mesh of so many columns and rows. Refused where one of them is outside 1 to 8.
    pub fn new(columns: u8, rows: u8) -> Result<Mesh, WallFault>
        ensures { MatchResult result (λ m. Sides columns rows × (m.columns ≡ columns) × (m.rows ≡ rows)) (λ f. (Sides columns rows → ⊥) × (f ≡ MeshSide)) }
    {
        if !(1..=8).contains(&columns) || !(1..=8).contains(&rows) {
            return Err(WallFault::MeshSide);
        }
        Ok(Mesh { columns, rows })
    }

    // The node in this row and column.
    fn node_at(&self, row: u8, column: u8) -> u8
        requires in_row { row < self.now.rows }
        requires in_column { column < self.now.columns }
        ensures { result ≡ row * self.now.columns + column }
    {
        row * self.columns + column
    }
}

impl Wiring for Mesh {
    ghost layout = { λ m. grid m.columns m.rows };

    ghost sound = { λ m. grid_sound m.columns m.rows m.some_columns m.few_columns m.some_rows m.few_rows };

    fn node_count(&self) -> u8 {
        self.columns * self.rows
    }

    fn far_end(&self, node: u8, port: u8) -> Option<(u8, u8)> {
        if node >= self.node_count() {
            return None;
        }
        let row = node / self.columns;
        let column = node % self.columns;
        match port {
            0 if row > 0 => Some((self.node_at(row - 1, column), 2)),
            1 if column + 1 < self.columns => Some((self.node_at(row, column + 1), 3)),
            2 if row + 1 < self.rows => Some((self.node_at(row + 1, column), 0)),
            3 if column > 0 => Some((self.node_at(row, column - 1), 1)),
            _ => None,
        }
    }
}
