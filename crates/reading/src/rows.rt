//! Rows: small lines, lists and turns, for which the definitions are computed.

ghost use Rattle.seq_base.specs.World.{World};
ghost use Rattle.seq_outside.specs.declared.env.Env.{Env};
ghost use Rattle.line_steps.specs.declared.setting.Setting.{Setting};
ghost use Rattle.reading.specs.Opening.{Checks};
ghost use Rattle.reading.specs.Rows.{BecomesEmpty, Breaks, Conflicts, DriverBreaks, ExecFails, ExecLeavesDirt, Forwards, HookRuns, InTheWay};
ghost use Rattle.reading.specs.Rows.{BelowAnother, BranchMoved, FailedWords, KeepsLines, NothingRewritten, Pairs, ReadsUntil, TodoIsBad};
ghost use Rattle.reading.specs.Rows.{CountsLines, GivesUp, IsDenied, KeepsFiles, StartIsTold};
ghost use Rattle.reading.specs.Tapes.{Again, Turn};
ghost use Rattle.seq_model.specs.declared.denial.Denial.{Denial};
ghost use Rattle.state_text.specs.declared.control.Control.{Control};
ghost use Rattle.reading.specs.Rows.{MadeByUser, ResolvedToNothing, StagedPast, StartIsRefused, TakesOut, TakesUp, TurnsApart, Unresolved};

/// What lines come to, and how they stop.
pub fn small_lines()
    ensures breaks { (w : World) → Breaks w }
    ensures forwards { Forwards }
    ensures conflicts { (w v : World) → Conflicts w v }
    ensures in_the_way { (w : World) → InTheWay w }
    ensures driver_breaks { (setting : Setting) → (w : World) → DriverBreaks setting w }
    ensures becomes_empty { (w : World) → BecomesEmpty w }
    ensures exec_fails { (w : World) → ExecFails w }
    ensures exec_leaves_dirt { (w : World) → ExecLeavesDirt w }
    ensures hook_runs { (w : World) → HookRuns w }
{}

/// What a list of lines comes to, and its end.
pub fn small_list()
    ensures reads_until { (setting : Setting) → (w : World) → ReadsUntil setting w }
    ensures keeps_lines { KeepsLines }
    ensures failed_words { FailedWords }
    ensures todo_is_bad { (w : World) → TodoIsBad w }
    ensures pairs { Pairs }
    ensures nothing_rewritten { (w : World) → NothingRewritten w }
    ensures branch_moved { (w : World) → BranchMoved w }
    ensures below_another { (w : World) → BelowAnother w }
{}

/// Whether a turn begins, and how it goes on.
pub fn small_turns()
    ensures start_is_refused { (w : World) → StartIsRefused w }
    ensures turns_apart { (env : Env) → (w : World) → TurnsApart env w }
    ensures unresolved { (w : World) → Unresolved w }
    ensures staged_past { StagedPast }
    ensures made_by_user { (setting : Setting) → (w : World) → MadeByUser setting w }
    ensures resolved_to_nothing { (w : World) → ResolvedToNothing w }
    ensures takes_out { TakesOut }
    ensures takes_up { (setting : Setting) → TakesUp setting }
{}

/// What stands in files, what a start and an abort write, and a turn that is denied.
pub fn small_files()
    ensures keeps_files { KeepsFiles }
    ensures counts_lines { (w : World) → CountsLines w }
    ensures start_is_told { (setting : Setting) → StartIsTold setting }
    ensures gives_up { GivesUp }
    ensures is_denied { (checks : Checks) → (turn : Turn) → (again : Again) → (k : Control) → (why : Denial) → IsDenied checks turn again k why }
{}
