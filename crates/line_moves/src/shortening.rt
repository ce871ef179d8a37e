// Copies that moves can do without.
use crate::moves::{Gathering, Gatherings, Move, Moves};
use plan_tools::{NOWHERE, Table, Work, list_at, put};
use std::alloc::Global;

/// How many copies to one line are looked through for one that stands there again.
const MOST_OPEN: usize = 1024;

/// How often moves are gone through, and how many of them in all.
const MOST_PASSES: u32 = 16;

const MOST_WORK: usize = 12_000_000;

/// Leaves out copies. Two equal copies go where no move between them changes the line that is
/// copied or reads the one that it is copied to. Where one copy alone does so, both go too, and
/// another one comes beside it: of `a` to `b`, `b` to `c`, `a` to `b` are left `b` to `c`, `a` to
/// `c`; of `a` to `b`, `c` to `a`, `a` to `b` are left `c` to `a`, `c` to `b`. A pass takes time
/// near linear in the moves.
pub fn shorten(moves: &mut Moves, lines: u32) {
    let mut work: usize = 0;
    for _ in 0..MOST_PASSES {
        let length = moves.len();
        work = work.saturating_add(length);
        if work > MOST_WORK {
            return;
        }
        moves.list = passed(moves, lines);
        if moves.len() == length {
            return;
        }
    }
}

// One pass over moves. Those that name a line which is not among so many stay.
fn passed(moves: &mut Moves, lines: u32) -> Vec<Move> {
    let mut pass = Pass::new(moves.room.alloc, &moves.list, lines);
    let mut place: u32 = 0;
    for step in &moves.list {
        match *step {
            Move::Copy { from, to } => pass.copy(place, from, to),
            Move::Toggle {
                onto,
                place: gathered,
                ..
            } => pass.toggle(place, onto, list_at(&moves.gatherings, gathered)),
        }
        place = place.saturating_add(1);
    }
    let rest = pass.edited();
    if let Err(stop) = pass.work.finish(()) {
        moves.room.stop(stop);
    }
    rest
}

// What becomes of a move: it stays, goes, or gets a copy beside it.
#[derive(Clone, Copy)]
enum Edit {
    Stay,
    Go,
    With { from: u32, to: u32 },
}

// What stands between two equal copies and keeps them from meeting: moves that change the line that
// is copied, or read the one that it is copied to.
#[derive(Clone, Copy)]
enum Between {
    Nothing,
    One(u32),
    More,
}

impl Between {
    fn and(self, other: Between) -> Between {
        match (self, other) {
            (Between::Nothing, _) => other,
            (_, Between::Nothing) => self,
            (Between::One(first), Between::One(second)) if first == second => self,
            _ => Between::More,
        }
    }
}

// The places of the last two moves that did something to a line.
#[derive(Clone, Copy)]
struct LastTwo {
    last: Option<u32>,
    before: Option<u32>,
}

impl LastTwo {
    const NONE: LastTwo = LastTwo {
        last: None,
        before: None,
    };

    // The same with one move more.
    fn and(self, place: u32) -> LastTwo {
        if self.last == Some(place) {
            return self;
        }
        LastTwo {
            last: Some(place),
            before: self.last,
        }
    }

    // Which of them stand behind a place.
    fn behind(self, place: u32) -> Between {
        if let Some(before) = self.before
            && before > place
        {
            return Between::More;
        }
        match self.last {
            Some(last) if last > place => Between::One(last),
            _ => Between::Nothing,
        }
    }
}

// What a pass knows of a line: the moves that read it, and those that change it.
#[derive(Clone, Copy)]
struct Line {
    reads: LastTwo,
    changes: LastTwo,
}

impl Line {
    const NONE: Line = Line {
        reads: LastTwo::NONE,
        changes: LastTwo::NONE,
    };
}

// A copy from a line, at a place, that may meet its like.
#[derive(Clone, Copy)]
struct Open {
    from: u32,
    place: u32,
}

#[derive(Drop)]
struct Pass<'m> {
    list: &'m [Move],
    edits: Table<Edit>,
    /// Of each line the copies to it that may meet their like.
    opens: Vec<Vec<Open>>,
    lines: Table<Line>,
    work: Work,
}

impl<'m> Pass<'m> {
    fn new(alloc: Global, list: &'m [Move], lines: u32) -> Pass<'m> {
        let mut work = Work::new(alloc, 0);
        Pass {
            list,
            edits: Table::new(&mut work, list.len(), Edit::Stay),
            opens: work.lists(lines as usize),
            lines: Table::new(&mut work, lines as usize, Line::NONE),
            work,
        }
    }

    // The moves that are left.
    fn edited(&mut self) -> Vec<Move> {
        let mut rest = Vec::new(self.work.alloc);
        let mut place: u32 = 0;
        for step in self.list {
            let edit = self.edits.get(place);
            if !matches!(edit, Edit::Go) {
                self.work.push(&mut rest, *step);
            }
            if let Edit::With { from, to } = edit {
                self.work.push(&mut rest, Move::Copy { from, to });
            }
            place = place.saturating_add(1);
        }
        rest
    }

    fn copy(&mut self, place: u32, from: u32, to: u32) {
        match self.take_open(from, to) {
            Some(other) if self.stays(other) && self.meets(other, place, from, to) => {}
            _ => self.keep(place, from, to),
        }
    }

    // Whether a copy meets its like; both go then.
    fn meets(&mut self, other: u32, place: u32, from: u32, to: u32) -> bool {
        match self.between(other, from, to) {
            Between::Nothing => {}
            Between::One(between) => {
                let Some(edit) = self.beside(between, from, to) else {
                    return false;
                };
                self.edits.set(between, edit);
                // What the copies did is done between them now: no pair meets over that.
                self.note(place, from, to);
            }
            Between::More => return false,
        }
        self.edits.set(other, Edit::Go);
        self.edits.set(place, Edit::Go);
        true
    }

    // The place of the last copy of `from` to `to`, if it may meet its like. It is looked at once.
    fn take_open(&mut self, from: u32, to: u32) -> Option<u32> {
        let least = self.least_place(from, to);
        let to = to as usize;
        if to >= self.opens.len() {
            return None;
        }
        let k = last_from(&self.opens[to], from, least)?;
        if k >= self.opens[to].len() {
            return None;
        }
        Some(self.opens[to].remove(k).place)
    }

    // The least place of a copy of `from` to `to` behind which no two moves change the one or read
    // the other.
    fn least_place(&self, from: u32, to: u32) -> u32 {
        let reads = self.lines.get(to).reads.before.unwrap_or(0);
        let changes = self.lines.get(from).changes.before.unwrap_or(0);
        reads.max(changes)
    }

    // What stands behind the place of a copy of `from` to `to`.
    fn between(&self, place: u32, from: u32, to: u32) -> Between {
        let reads = self.lines.get(to).reads.behind(place);
        reads.and(self.lines.get(from).changes.behind(place))
    }

    fn stays(&self, place: u32) -> bool {
        matches!(self.edits.get(place), Edit::Stay)
    }

    // The copy that stands for two copies of `from` to `to` beside the copy between them, which
    // reads `to` or changes `from`.
    fn beside(&self, between: u32, from: u32, to: u32) -> Option<Edit> {
        if !self.stays(between) {
            return None;
        }
        let (source, target) = self.ends(between);
        if source == to && target != from {
            Some(Edit::With { from, to: target })
        } else if source != to && target == from {
            Some(Edit::With { from: source, to })
        } else {
            None
        }
    }

    // The lines of the copy at a place.
    fn ends(&self, place: u32) -> (u32, u32) {
        match self.list.get(place as usize) {
            Some(Move::Copy { from, to }) => (*from, *to),
            _ => (NOWHERE, NOWHERE),
        }
    }

    // A copy that stays, so far.
    fn keep(&mut self, place: u32, from: u32, to: u32) {
        self.note(place, from, to);
        if list_at(&self.opens, to).len() >= MOST_OPEN {
            self.shed(to);
        }
        let to = to as usize;
        if to < self.opens.len() {
            self.work.push(&mut self.opens[to], Open { from, place });
        }
    }

    // Forgets the copies to a line behind which two moves read it; all, where many are left.
    fn shed(&mut self, to: u32) {
        let least = self.lines.get(to).reads.before.unwrap_or(0);
        let all = list_at(&self.opens, to);
        let first = first_left(all, least).min(all.len());
        let rest = self.work.copy(&all[first..]);
        put(&mut self.opens, to, rest);
    }

    fn note(&mut self, place: u32, from: u32, to: u32) {
        self.read(place, from);
        self.change(place, to);
    }

    fn toggle(&mut self, place: u32, onto: u32, gatherings: &[Gatherings]) {
        for both in gatherings {
            self.read_gathered(place, &both.first);
            self.read_gathered(place, &both.second);
        }
        self.change(place, onto);
    }

    fn read_gathered(&mut self, place: u32, gathering: &Gathering) {
        self.read(place, gathering.on);
        for line in &gathering.others {
            self.read(place, *line);
        }
    }

    fn read(&mut self, place: u32, line: u32) {
        let mut now = self.lines.get(line);
        now.reads = now.reads.and(place);
        self.lines.set(line, now);
    }

    fn change(&mut self, place: u32, line: u32) {
        let mut now = self.lines.get(line);
        now.changes = now.changes.and(place);
        self.lines.set(line, now);
    }
}

// Where the copies from a place on begin; behind all, where these are many. Places rise.
fn first_left(opens: &[Open], least: u32) -> usize {
    let mut first: usize = 0;
    for open in opens {
        if open.place >= least {
            break;
        }
        first = first.saturating_add(1);
    }
    if opens.len().saturating_sub(first) > MOST_OPEN / 2 {
        opens.len()
    } else {
        first
    }
}

// Where the last copy from a line stands, if its place is not before the least one. Places rise.
fn last_from(opens: &[Open], from: u32, least: u32) -> Option<usize> {
    for (k, open) in opens.iter().enumerate().rev() {
        if open.place < least {
            return None;
        }
        if open.from == from {
            return Some(k);
        }
    }
    None
}
