//! How many tasks and conflicts there may be at once, how many passes may number their requests, and how long a line may be.

ghost use Rattle.std.specs.Prelude.{◌≡◌, ◌≤◌, ◌↔◌, IsSome, IfSome};
ghost use Rattle.dine_words.specs.Ranges.{most_conflicts, most_tasks};

/// The most tasks that limits can allow.
pub const MAX_TASKS: u32 = 4096;

/// The most conflicts that limits can allow.
pub const MAX_CONFLICTS: u32 = 65_535;

/// How many tasks may be present, where neither a scenario nor a command line says.
pub const DEFAULT_TASKS: u32 = 64;

/// How many conflicts may stand, where neither a scenario nor a command line says.
pub const DEFAULT_CONFLICTS: u32 = 256;

/// The most passes that can number what they ask of a service.
pub const MAX_NUMBERED_PASSES: u32 = 65_536;

/// The most bytes that a line may have, its line feed not counted.
pub const MAX_LINE: usize = 4096;

/// How many tasks may be present, and how many conflicts may stand, at once. Each value is in range:
/// `tasks` is from 1 to [`MAX_TASKS`] and `conflicts` from 1 to [`MAX_CONFLICTS`].
///
/// Limits are this project's own: the 1984 paper has a fixed graph. The header that tells them is read in `read.rt`, and
/// written in `write.rt`.
#[derive(Clone, Copy, Debug, PartialEq, Eq, Hash)]
pub struct Limits {
    pub tasks: u32,
    pub conflicts: u32,
    ghost some_tasks: { 1 ≤ tasks },
    ghost tasks_in_range: { tasks ≤ most_tasks },
    ghost some_conflicts: { 1 ≤ conflicts },
    ghost conflicts_in_range: { conflicts ≤ most_conflicts },
}

impl Limits {
    /// The limits, or `None` where a number is out of its range.
    pub fn new(tasks: u32, conflicts: u32) -> Option<Self>
        ensures range { IsSome result ↔
            ((1 ≤ tasks) × (tasks ≤ most_tasks) × (1 ≤ conflicts) × (conflicts ≤ most_conflicts)) }
        ensures kept { IfSome result (λ limits.
            (limits.tasks ≡ tasks) × (limits.conflicts ≡ conflicts)) }
    {
        let is_in_range = 1 <= tasks
            && tasks <= MAX_TASKS
            && 1 <= conflicts
            && conflicts <= MAX_CONFLICTS;
        if !is_in_range {
            return None;
        }
        Some(Limits { tasks, conflicts })
    }
}
