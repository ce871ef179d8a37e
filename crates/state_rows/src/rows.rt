// Rows in two layers, with what changed them.
use crate::placing::Place;
use plan_tools::{Echelon, Reduced, Row, Table, Work, number};

/// Where a row belongs. Rows of the state begin as zeros and end as outputs; those beneath are
/// undone in the end, and so only rows beneath may be added to them.
#[derive(Clone, Copy, PartialEq, Eq)]
pub enum Layer {
    State,
    Beneath,
}

/// A step of a sweep, which goes back from the end.
#[derive(Drop)]
pub enum Step {
    /// The line of one row is added to that of another.
    Add {
        from: Row,
        to: Row,
    },
    /// A node is toggled onto the line of a row; each of its factors is a sum of rows.
    Toggle {
        node: u32,
        onto: Row,
        first: Vec<Row>,
        second: Vec<Row>,
    },
    /// The row begins: its line holds nothing before that.
    Begin(Row),
    /// A row of a layer ends: its line holds nothing behind that.
    End {
        row: Row,
        layer: Layer,
    },
    /// A row beneath is wanted no more behind that, but keeps its line.
    Last(Row),
    /// A row is the definition of a node without a product, and has no line.
    Define {
        row: Row,
        node: u32,
    },
}

impl Step {
    fn copy(&self, work: &mut Work) -> Step {
        match self {
            Step::Add { from, to } => Step::Add {
                from: *from,
                to: *to,
            },
            Step::Toggle {
                node,
                onto,
                first,
                second,
            } => Step::Toggle {
                node: *node,
                onto: *onto,
                first: work.copy(first),
                second: work.copy(second),
            },
            Step::Begin(row) => Step::Begin(*row),
            Step::End { row, layer } => Step::End {
                row: *row,
                layer: *layer,
            },
            Step::Last(row) => Step::Last(*row),
            Step::Define { row, node } => Step::Define {
                row: *row,
                node: *node,
            },
        }
    }
}

// What a row held before it changed; nothing where it was out.
#[derive(Drop)]
struct Change {
    row: Row,
    before: Vec<u32>,
}

/// Where a sweep stood.
#[derive(Clone, Copy)]
pub struct Mark {
    steps: usize,
    next: Row,
    lasts: u32,
}

/// Rows of vectors with different heads, their greatest symbols. A row without a vector is out.
#[derive(Drop)]
pub struct StateRows {
    pub(crate) echelon: Echelon,
    /// Of each row its layer.
    layers: Table<Layer>,
    /// Of each row whether it is a definition: a sum that is 0, so it takes no line.
    is_definition: Table<bool>,
    /// By more than how many symbols a vector is to be shorter than the row with its head to take
    /// that head.
    pub(crate) margin: usize,
    /// The row behind those that were made.
    next: Row,
    /// How many of them keep their lines up to the end.
    lasts: u32,
    /// The changes of rows since the last call of `mark`.
    changes: Option<Vec<Change>>,
    /// Of each row when it changed last, counted in changes.
    moments: Table<u64>,
    now: u64,
    /// The rows of the state that changed since the last call of `take_changed`.
    changed: Vec<Row>,
    is_changed: Table<bool>,
    pub steps: Vec<Step>,
}

impl StateRows {
    /// No rows, over so many symbols. A vector takes the head of a row that is longer by more than
    /// the margin.
    pub fn new(work: &mut Work, symbols: usize, margin: usize) -> StateRows {
        StateRows {
            margin,
            echelon: Echelon::new(work, symbols),
            layers: Table::of(Vec::new(work.alloc), Layer::State),
            is_definition: Table::of(Vec::new(work.alloc), false),
            next: 0,
            lasts: 0,
            changes: None,
            moments: Table::of(Vec::new(work.alloc), 0),
            now: 0,
            changed: Vec::new(work.alloc),
            is_changed: Table::of(Vec::new(work.alloc), false),
            steps: Vec::new(work.alloc),
        }
    }

    /// How many rows were made.
    pub fn count(&self) -> u32 {
        self.next
    }

    /// How many rows keep their lines up to the end: each has another one.
    pub fn lasts(&self) -> u32 {
        self.lasts
    }

    /// How many rows have a vector: each of them has a line of its own.
    pub fn rank(&self) -> u32 {
        self.echelon.rank()
    }

    /// How many symbols there are.
    pub fn symbols(&self) -> usize {
        self.echelon.symbols()
    }

    /// The row whose head is this symbol, if there is one.
    pub fn with_head(&self, symbol: u32) -> Option<Row> {
        self.echelon.with_head(symbol)
    }

    /// The vector of a row; empty where it is out.
    pub fn vector(&self, row: Row) -> &[u32] {
        self.echelon.vector(row)
    }

    /// The layer of a row.
    pub fn layer(&self, row: Row) -> Layer {
        self.layers.get(row)
    }

    /// Whether a row is a definition. It keeps its vector and its head.
    pub fn is_definition(&self, row: Row) -> bool {
        self.is_definition.get(row)
    }

    /// The row of a layer whose head is this symbol, if there is one.
    pub fn in_layer(&self, symbol: u32, layer: Layer) -> Option<Row> {
        let row = self.with_head(symbol)?;
        if self.layer(row) == layer {
            Some(row)
        } else {
            None
        }
    }

    /// Whether rows of a layer may read this row.
    pub(crate) fn is_read_by(&self, row: Row, layer: Layer) -> bool {
        layer == Layer::State || self.layer(row) == Layer::Beneath
    }

    // The row that has the head of a vector, if a layer may read it.
    fn rival(&self, vector: &[u32], layer: Layer) -> Option<Row> {
        let row = self.echelon.rival(vector)?;
        if self.is_read_by(row, layer) {
            Some(row)
        } else {
            None
        }
    }

    /// Adds rows that a layer may read to a vector until its greatest symbol is no such row's head.
    pub fn reduce(&self, work: &mut Work, vector: &[u32], layer: Layer) -> Reduced {
        let mut left = work.copy(vector);
        let mut rows = Vec::new(work.alloc);
        for _ in 0..self.symbols() {
            let Some(row) = self.rival(&left, layer) else {
                break;
            };
            work.push(&mut rows, row);
            left = self.echelon.plus(work, &left, row);
        }
        Reduced { left, rows }
    }

    /// What `reduce` leaves of a vector.
    pub fn rest(&self, work: &mut Work, vector: &[u32], layer: Layer) -> Vec<u32> {
        let mut left = work.copy(vector);
        for _ in 0..self.symbols() {
            let Some(row) = self.rival(&left, layer) else {
                break;
            };
            left = self.echelon.plus(work, &left, row);
        }
        left
    }

    /// Whether a vector is in the span of the rows that a layer may read.
    pub fn spans(&self, work: &mut Work, vector: &[u32], layer: Layer) -> bool {
        match self.rival(vector, layer) {
            Some(row) => {
                let left = self.echelon.plus(work, vector, row);
                left.is_empty() || self.rest(work, &left, layer).is_empty()
            }
            None => vector.is_empty(),
        }
    }

    /// The rows that sum to a vector. The work gives up where it is not in their span.
    pub fn rows_of(&self, work: &mut Work, vector: &[u32], layer: Layer) -> Vec<Row> {
        let Reduced { left, rows } = self.reduce(work, vector, layer);
        if !left.is_empty() {
            work.give_up();
        }
        rows
    }

    /// A new row of a layer, which is out.
    pub fn fresh(&mut self, work: &mut Work, layer: Layer) -> Row {
        let row = self.next;
        if row as usize >= self.echelon.made() {
            let _ = self.echelon.fresh(work);
            self.layers.push(work, layer);
            self.is_definition.push(work, false);
            self.moments.push(work, 0);
            self.is_changed.push(work, false);
        }
        self.layers.set(row, layer);
        self.is_definition.set(row, false);
        self.next = row.saturating_add(1);
        row
    }

    /// Makes a sum that is 0 a row: the definition of a node.
    pub fn define(&mut self, work: &mut Work, node: u32, vector: Vec<u32>) {
        let row = self.fresh(work, Layer::Beneath);
        self.is_definition.set(row, true);
        self.push(work, Step::Define { row, node });
        self.place(work, row, vector, Place::First);
    }

    /// Takes a row out, and gives its vector.
    pub fn take(&mut self, work: &mut Work, row: Row) -> Vec<u32> {
        let vector = self.take_out(work, row);
        self.note_change(work, row, &vector);
        vector
    }

    /// Puts a vector into a row that is out. Its head is that of no other row.
    pub fn put(&mut self, work: &mut Work, row: Row, vector: Vec<u32>) {
        self.note_change(work, row, &[]);
        self.put_in(work, row, vector);
    }

    fn take_out(&mut self, work: &mut Work, row: Row) -> Vec<u32> {
        self.change(row);
        self.echelon.take(work, row)
    }

    fn put_in(&mut self, work: &mut Work, row: Row, vector: Vec<u32>) {
        self.change(row);
        if self.layer(row) == Layer::State && !self.is_changed.get(row) {
            self.is_changed.set(row, true);
            work.push(&mut self.changed, row);
        }
        self.echelon.put(work, row, vector);
    }

    fn change(&mut self, row: Row) {
        self.now = self.now.saturating_add(1);
        self.moments.set(row, self.now);
    }

    /// When a row changed last, counted in changes.
    pub fn moment(&self, row: Row) -> u64 {
        self.moments.get(row)
    }

    /// The rows of the state to which a vector came since the last such call. Some may be out
    /// again, or beneath.
    pub fn take_changed(&mut self, work: &Work) -> Vec<Row> {
        let changed = work.take(&mut self.changed);
        for row in &changed {
            self.is_changed.set(*row, false);
        }
        changed
    }

    // Notes what a row holds before it changes, where changes are noted.
    fn note_change(&mut self, work: &mut Work, row: Row, vector: &[u32]) {
        if let Some(changes) = &mut self.changes {
            let before = work.copy(vector);
            work.push(changes, Change { row, before });
        }
    }

    /// From here on changes are noted, so that `undo` takes them back.
    pub fn mark(&mut self, work: &Work) -> Mark {
        self.changes = Some(Vec::new(work.alloc));
        Mark {
            steps: self.steps.len(),
            next: self.next,
            lasts: self.lasts,
        }
    }

    /// The changes stay, and are noted no more.
    pub fn keep(&mut self) {
        self.changes = None;
    }

    /// Takes what was done since `mark` back. Changes are noted further.
    pub fn undo(&mut self, work: &mut Work, mark: Mark) {
        let Some(changes) = self.changes.replace(Vec::new(work.alloc)) else {
            return;
        };
        for Change { row, before } in changes.into_iter().rev() {
            if before.is_empty() {
                let _ = self.take_out(work, row);
            } else {
                self.put_in(work, row, before);
            }
        }
        self.steps.truncate(mark.steps);
        self.next = mark.next;
        self.lasts = mark.lasts;
    }

    /// A new row beneath, which is out, and is wanted no more behind that.
    pub(crate) fn fresh_last(&mut self, work: &mut Work) -> Row {
        let row = self.fresh(work, Layer::Beneath);
        self.push(work, Step::Last(row));
        self.lasts = self.lasts.saturating_add(1);
        row
    }

    /// The same rows and steps once more. Changes are not noted there.
    pub fn copy(&self, work: &mut Work) -> StateRows {
        StateRows {
            echelon: copy_of(work, &self.echelon),
            layers: self.layers.copy(work),
            is_definition: self.is_definition.copy(work),
            margin: self.margin,
            next: self.next,
            lasts: self.lasts,
            changes: None,
            moments: self.moments.copy(work),
            now: self.now,
            changed: work.copy(&self.changed),
            is_changed: self.is_changed.copy(work),
            steps: copies_of(work, &self.steps),
        }
    }

    /// Appends a step.
    pub fn push(&mut self, work: &mut Work, step: Step) {
        work.push(&mut self.steps, step);
    }

    /// Appends the additions of rows to one.
    pub fn add_all(&mut self, work: &mut Work, rows: &[Row], to: Row) {
        for from in rows {
            work.push(&mut self.steps, Step::Add { from: *from, to });
        }
    }
}

/// The same rows once more.
pub fn copy_of(work: &mut Work, echelon: &Echelon) -> Echelon {
    let mut copy = Echelon::new(work, echelon.symbols());
    for row in 0..number(echelon.made()) {
        let _ = copy.fresh(work);
        let vector = work.copy(echelon.vector(row));
        if !vector.is_empty() {
            copy.put(work, row, vector);
        }
    }
    copy
}

fn copies_of(work: &mut Work, steps: &[Step]) -> Vec<Step> {
    let mut copies = Vec::new(work.alloc);
    for step in steps {
        let copy = step.copy(work);
        work.push(&mut copies, copy);
    }
    copies
}
