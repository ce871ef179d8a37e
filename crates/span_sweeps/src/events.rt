// What a sweep finds, for its replay.
use plan_tools::Row;
use span_rows::Add;

/// The two factors of a product, each as the sum of some rows.
#[derive(Drop)]
pub struct Factors {
    pub first: Vec<Row>,
    pub second: Vec<Row>,
}

/// A toggle of a node, between the additions that make rows of its factors and those that lead on
/// from its line.
#[derive(Drop)]
pub struct Toggle {
    /// The node, by its place in the order.
    pub node: u32,
    pub before: Vec<Add>,
    /// Of each product.
    pub factors: Vec<Factors>,
    pub after: Vec<Add>,
    /// The rows that only the factors want, behind the toggle.
    pub new: Vec<Row>,
}

impl Toggle {
    /// How many additions, and rows of factors, it notes.
    pub fn size(&self) -> usize {
        let mut size = self.before.len().saturating_add(self.after.len());
        for factors in &self.factors {
            size = size.saturating_add(factors.first.len());
            size = size.saturating_add(factors.second.len());
        }
        size
    }
}

/// What becomes of a node at one turn of a schedule.
#[derive(Drop)]
pub enum Event {
    /// It is added to the line of a row, a new line where `is_fresh`. At the end it is taken off
    /// again; of a node with a home the rows `rest` are added in its place then.
    On {
        toggle: Toggle,
        row: Row,
        is_fresh: bool,
        rest: Option<Vec<Row>>,
    },
    /// It is all that the line of a row holds, and is taken off: the line is free.
    Off {
        toggle: Toggle,
        row: Row,
    },
    /// A final node: it is added to the lines of its outputs.
    Final {
        toggle: Toggle,
    },
    /// A block begins: its rows get new lines.
    Open {
        rows: Vec<Row>,
    },
    /// A node that only these rows of a block want: it is added to their lines, and stays there
    /// when the block is undone.
    Part {
        toggle: Toggle,
        rows: Vec<Row>,
    },
    /// A block ends: its rows take these sums, and then all else that it did is undone. Of nodes
    /// without products that were written out in the vector of a row that row and the node. Then,
    /// for each of the renewals, the first of its rows takes the others, and its line is that of
    /// the row which the renewal is onto.
    Close {
        ends: Vec<End>,
        written: Vec<(Row, u32)>,
        renewals: Vec<End>,
    },
}

/// What is copied to a line, that of an output or of a row: the sum of some rows.
#[derive(Drop)]
pub struct End {
    pub onto: u32,
    pub rows: Vec<Row>,
}

/// A row with its vector.
#[derive(Drop)]
pub struct RowVector {
    pub row: Row,
    pub vector: Vec<u32>,
}
