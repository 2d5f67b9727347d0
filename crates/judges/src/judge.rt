// What a judge is, and what it may be asked.
ghost use Rattle.std.specs.Prelude.{◌≡◌};
ghost use Rattle.judges.specs.Laws.{Meaning, JudgeLaws};

use tasks::{Task, Ticks};

/// A judge is asked about a task and the list of tasks above it, and gives one instant or none.
/// Being asked may change its own state, but not its meaning.
pub trait Judge {
    ghost meaning: { Self → Meaning };

    // The task and those above it stand side by side, as callers have them: a pair would be made anew for each question.
    fn ask(&mut self, task: Task, above: &[Task]) -> Option<Ticks>
        ensures answer { result ≡ meaning self.old task above.now }
        ensures same { meaning self.new ≡ meaning self.old };

    ghost lawful: { (s : Self) → JudgeLaws (meaning s) };
}
