// How deep gates stand.
use layer_orders::Step;
use plan_tools::{Table, Work};

/// The depth of gates on so many lines: the most that stand one behind the other, each on a line of
/// the one before.
pub fn depth(work: &mut Work, steps: &[Step], lines: u32) -> u32 {
    let mut depths = Table::new(work, lines as usize, 0_u32);
    let mut most: u32 = 0;
    for step in steps {
        let [first, second] = step.reads;
        let before = depths
            .get(first)
            .max(depths.get(second))
            .max(depths.get(step.target));
        let depth = before.saturating_add(step.duration());
        depths.set(first, depth);
        depths.set(second, depth);
        depths.set(step.target, depth);
        most = most.max(depth);
    }
    most
}
