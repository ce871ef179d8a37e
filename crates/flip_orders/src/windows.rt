// Which steps are taken on each line.
use flip_lists::{Controls, Flip};
use revc_base::Memory;
use std::alloc::Global;

// How many steps of a line are told apart.
const WIDTH: u32 = 64;

// A place that no line has.
const NO_LINE: usize = usize::MAX;

/// What a flip is to a line.
#[derive(Clone, Copy, PartialEq, Eq)]
enum Role {
    None,
    Control,
    Target,
}

// Of a line: what tells its present group of flips from the one before, their role and segment; the
// first step of a window, which of the steps from there on are taken, and the last one.
#[derive(Clone, Copy)]
struct Window {
    role: Role,
    segment: u32,
    base: u32,
    last: u32,
    taken: u64,
}

impl Window {
    const EMPTY: Window = Window {
        role: Role::None,
        segment: 0,
        base: 0,
        last: 0,
        taken: 0,
    };

    // A flip of another role or segment begins a group, behind all steps that are taken.
    fn entered(self, role: Role, segment: u32) -> Window {
        if self.role == role && self.segment == segment {
            return self;
        }
        Window {
            role,
            segment,
            base: self.last.saturating_add(1),
            last: self.last,
            taken: 0,
        }
    }

    // Which of the steps from one on are taken.
    fn taken_from(self, step: u32) -> u64 {
        let past = step.saturating_sub(self.base);
        if past < WIDTH { self.taken >> past } else { 0 }
    }

    fn with(self, step: u32) -> Window {
        let past = step.saturating_sub(self.base).saturating_sub(WIDTH - 1);
        let base = self.base.saturating_add(past);
        let kept = if past < WIDTH { self.taken >> past } else { 0 };
        let at = step.saturating_sub(base).min(WIDTH - 1);
        Window {
            base,
            last: self.last.max(step),
            taken: kept | 1 << at,
            ..self
        }
    }

    fn passed(self, step: u32) -> Window {
        Window {
            last: self.last.max(step),
            ..self
        }
    }
}

// The first step from one on of which a mask says that it is not taken.
fn first_free(step: u32, taken: u64) -> u32 {
    step.saturating_add((!taken).trailing_zeros())
}

/// The steps that are taken on each line, as flips come one after another. On a line the flips that
/// have it as a control and those that have it as target form groups, one behind another.
#[derive(Drop)]
pub struct Windows {
    on: Vec<Window>,
}

impl Windows {
    pub fn new(alloc: Global, lines: u32) -> Result<Windows, Memory> {
        let on = vec![in alloc; Window::EMPTY; lines as usize]?;
        Ok(Windows { on })
    }

    /// The first step at which all lines of the flip are free. The flip takes it.
    pub fn take(&mut self, flip: Flip, segment: u32) -> u32 {
        let target = self.window(flip.target, Role::Target, segment);
        let step = match flip.controls {
            Controls::Zero => first_free(target.base, target.taken),
            Controls::One(one) => self.take_on(one, segment, target),
            Controls::Two(first, second) => self.take_on_both(first, second, segment, target),
        };
        self.set(flip.target, target.with(step));
        step
    }

    // The first step at which the target and a control are free. The control takes it.
    fn take_on(&mut self, line: u32, segment: u32, target: Window) -> u32 {
        let control = self.window(line, Role::Control, segment);
        let base = target.base.max(control.base);
        let step = first_free(base, target.taken_from(base) | control.taken_from(base));
        self.set(line, control.with(step));
        step
    }

    // The same of two controls.
    fn take_on_both(&mut self, first: u32, second: u32, segment: u32, target: Window) -> u32 {
        let one = self.window(first, Role::Control, segment);
        let other = self.window(second, Role::Control, segment);
        let base = target.base.max(one.base.max(other.base));
        let of_controls = one.taken_from(base) | other.taken_from(base);
        let step = first_free(base, target.taken_from(base) | of_controls);
        self.set(first, one.with(step));
        self.set(second, other.with(step));
        step
    }

    /// The step behind which the flip stands, where it takes none.
    pub fn pass(&mut self, flip: Flip, segment: u32) -> u32 {
        let target = self.window(flip.target, Role::Target, segment);
        let base = target.base.max(self.base_of(flip.controls, segment));
        let step = base.saturating_sub(1);
        self.set(flip.target, target.passed(step));
        self.pass_on(flip.controls, segment, step);
        step
    }

    // The first step that no group in front of one of these controls takes.
    fn base_of(&self, controls: Controls, segment: u32) -> u32 {
        match controls {
            Controls::Zero => 0,
            Controls::One(one) => self.window(one, Role::Control, segment).base,
            Controls::Two(first, second) => {
                let base = self.window(first, Role::Control, segment).base;
                base.max(self.window(second, Role::Control, segment).base)
            }
        }
    }

    fn pass_on(&mut self, controls: Controls, segment: u32, step: u32) {
        match controls {
            Controls::Zero => {}
            Controls::One(one) => self.pass_control(one, segment, step),
            Controls::Two(first, second) => {
                self.pass_control(first, segment, step);
                self.pass_control(second, segment, step);
            }
        }
    }

    fn pass_control(&mut self, line: u32, segment: u32, step: u32) {
        let control = self.window(line, Role::Control, segment);
        self.set(line, control.passed(step));
    }

    // The window of a line as a flip finds it; the empty one of a line that is missing.
    fn window(&self, line: u32, role: Role, segment: u32) -> Window {
        match self.on.get(line as usize) {
            Some(window) => window.entered(role, segment),
            None => Window::EMPTY,
        }
    }

    fn set(&mut self, line: u32, window: Window) {
        let line = line as usize;
        if line < self.on.len() {
            self.on[line] = window;
        }
    }
}

pub fn is_toffoli(flip: Flip) -> bool {
    match flip.controls {
        Controls::Two(..) => true,
        Controls::Zero | Controls::One(_) => false,
    }
}

/// The target and the two controls, with no line's place for one that is missing.
pub fn lines_of(flip: Flip) -> [usize; 3] {
    let target = flip.target as usize;
    match flip.controls {
        Controls::Zero => [target, NO_LINE, NO_LINE],
        Controls::One(one) => [target, one as usize, NO_LINE],
        Controls::Two(first, second) => [target, first as usize, second as usize],
    }
}
