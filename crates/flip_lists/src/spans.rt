// Where a walk need not look again. No contract rests on it: it saves looks at blocks.
ghost use Rattle.std.specs.Prelude.{◌≡◌, ◌++◌, ◌∷◌, [], option_to_list, OnOk};
ghost use Rattle.flip_lists.specs.Spans.{DropsBefore, IsClosed, IsOpened};
ghost use Rattle.flip_lists.specs.Spans.{closed, last_end, length_from, nearest, nearest_from, opened};

use revc_base::Memory;
use std::alloc::Global;

/// From a place up to another: a block that is not longer than its elimination, or flips in a row
/// that are no CX.
#[derive(Clone, Copy)]
pub struct Span {
    pub start: usize,
    pub end: usize,
}

/// Spans behind a place, which rise, or ahead of it, which fall: the last one is the nearest. An
/// empty one is that of a block that changed.
#[derive(Drop)]
pub struct Spans {
    spans: Vec<Span>,
}

impl Spans {
    /// There is no span.
    pub fn new(alloc: Global) -> Spans
        ensures { result.spans.items ≡ [] }
    {
        Spans {
            spans: Vec::new(alloc),
        }
    }

    /// Adds one, which is the nearest now.
    pub fn push(&mut self, start: usize, end: usize) -> Result<(), Memory>
        ensures { OnOk result (self.new.spans.items
            ≡ self.old.spans.items ++ record { start = start; end = end } ∷ []) }
    {
        self.spans.push(Span { start, end })?;
        Ok(())
    }

    /// The end of the nearest one, or 0.
    pub fn last_end(&self) -> usize
        ensures { result ≡ last_end self.now.spans.items }
    {
        match self.spans.last() {
            Some(span) => span.end,
            None => 0,
        }
    }

    /// Takes the nearest one, if it does not end before a place.
    pub fn pop_from(&mut self, place: usize) -> Option<Span>
        ensures nearest { result ≡ nearest_from place self.old.spans.items }
        ensures cut { self.old.spans.items ≡ self.new.spans.items ++ option_to_list result }
    {
        if self.last_end() < place {
            return None;
        }
        self.spans.pop()
    }

    /// Those that begin before a place go.
    pub fn drop_before(&mut self, place: usize)
        ensures { DropsBefore place self.old.spans.items self.new.spans.items }
    {
        'earlier: while !self.spans.is_empty() {
            if place <= self.spans[self.spans.len() - 1].start {
                return;
            }
            self.spans.pop();
        }
    }

    /// How long the one is that begins at a place, or 0. Those that begin before it go.
    pub fn length_at(&mut self, place: usize) -> usize
        ensures dropped { DropsBefore place self.old.spans.items self.new.spans.items }
        ensures length { result ≡ length_from place (nearest self.new.spans.items) }
    {
        self.drop_before(place);
        match self.spans.last() {
            Some(span) if span.start == place => span.end.saturating_sub(span.start),
            _ => 0,
        }
    }

    /// The flip at a place went out: those behind it come nearer to the start.
    pub fn close(&mut self, place: usize)
        ensures { IsClosed place self.old.spans.items self.new.spans.items }
    {
        for step in (0..self.spans.len()).rev() {
            let span = self.spans[step];
            if span.end < place {
                return;
            }
            self.spans[step] = span.closed(place);
        }
    }

    /// The same: those before it come nearer to the end.
    pub fn open(&mut self, place: usize)
        ensures { IsOpened place self.old.spans.items self.new.spans.items }
    {
        for step in (0..self.spans.len()).rev() {
            let span = self.spans[step];
            if place < span.start {
                return;
            }
            self.spans[step] = span.opened(place);
        }
    }
}

impl Span {
    fn closed(self, place: usize) -> Span
        ensures { result ≡ closed place self }
    {
        let Span { start, end } = self;
        if place < start {
            Span {
                start: start - 1,
                end: end.saturating_sub(1),
            }
        } else {
            Span { start, end: start }
        }
    }

    fn opened(self, place: usize) -> Span
        ensures { result ≡ opened place self }
    {
        let Span { start, end } = self;
        if end < place {
            Span {
                start: start.saturating_add(1),
                end: end.saturating_add(1),
            }
        } else {
            Span { start, end: start }
        }
    }
}
