//! The tables of statuses and of what commands read, computed. No function here does anything: each has a contract that
//! the check proves by computing.
ghost use Rattle.std.specs.Prelude.{◌≡◌, ℕ, [], codes};
ghost use Rattle.rc_house.specs.declared.options.Options.{Options};
ghost use Rattle.rc_house.specs.declared.rival.Rival.{Rival};
ghost use Rattle.rc_house.specs.declared.task.Task.TheVariants as task;
ghost use Rattle.rc_house.specs.declared.status.SourceKind.TheVariants.{Unseen, NoCards};
ghost use Rattle.rc_play_spec.specs.declared.plan_fault.PlanKind.TheVariants.{TooLarge};
ghost use Rattle.rc_judge.specs.declared.verdict.Why.TheVariants.{Menu, Named};
ghost use Rattle.rc_house.specs.declared.status.Status.TheVariants as ending;
ghost use Rattle.rc_house.specs.declared.note.Note.TheVariants.{Nothing, Looks};
ghost use Rattle.rc_house.specs.Task.{limit_of, wanted};
ghost use Rattle.rc_house.specs.Note.{note_line};
ghost use Rattle.rc_house.specs.Status.{code_of, line_of};

/// The exit codes.
pub fn codes_of_statuses()
    ensures done { code_of ending.Done ≡ 0 }
    ensures sheet { code_of (ending.Sheet NoCards 6) ≡ 1 }
    ensures usage { code_of ending.Usage ≡ 2 }
    ensures plan { code_of (ending.Plan TooLarge 463) ≡ 3 }
    ensures text { code_of (ending.Text 8) ≡ 4 }
    ensures illegal { code_of (ending.Illegal 3 Menu) ≡ 4 }
    ensures memory { code_of ending.Memory ≡ 5 }
    ensures read_fault { code_of ending.ReadFault ≡ 6 }
    ensures write_fault { code_of ending.WriteFault ≡ 7 }
    ensures too_long { code_of ending.TooLong ≡ 8 }
    ensures absent { code_of ending.Absent ≡ 10 }
{}

/// The lines that are noted.
pub fn lines_of_statuses()
    ensures done { line_of ending.Done ≡ [] }
    ensures sheet { line_of (ending.Sheet Unseen 338) ≡ codes "sheet Unseen 338\n" }
    ensures no_cards { line_of (ending.Sheet NoCards 0) ≡ codes "sheet NoCards 0\n" }
    ensures plan { line_of (ending.Plan TooLarge 463) ≡ codes "plan TooLarge 463\n" }
    ensures text { line_of (ending.Text 8) ≡ codes "text 8\n" }
    ensures illegal { line_of (ending.Illegal 3 Menu) ≡ codes "illegal 3 Menu\n" }
    ensures misnamed { line_of (ending.Illegal 7 Named) ≡ codes "illegal 7 Named\n" }
    ensures memory { line_of ending.Memory ≡ codes "no memory\n" }
    ensures read_fault { line_of ending.ReadFault ≡ codes "read fault\n" }
    ensures write_fault { line_of ending.WriteFault ≡ codes "write fault\n" }
    ensures too_long { line_of ending.TooLong ≡ codes "too long\n" }
    ensures usage { line_of ending.Usage
        ≡ codes "usage: cardhouse play, check, sheet, bench, migrate, watch, measure or rival\n" }
    ensures absent { line_of ending.Absent ≡ codes "absent\n" }
{}

/// How much a command reads, and what it notes.
pub fn sources_of_tasks()
    ensures play_reads { (options : Options) → wanted (task.Play options) ≡ 2 }
    ensures check_reads { wanted task.Check ≡ 2 }
    ensures migrate_reads { wanted task.Migrate ≡ 2 }
    ensures watch_reads { (seat number : ℕ) → wanted (task.Watch seat number) ≡ 2 }
    ensures measure_reads { wanted task.Measure ≡ 2 }
    ensures rival_reads { (rival : Rival) → wanted (task.Rival rival) ≡ 2 }
    ensures sheet_reads { wanted task.Sheet ≡ 1 }
    ensures check_takes { limit_of task.Check ≡ 33554432 }
    ensures migrate_takes { limit_of task.Migrate ≡ 33554432 }
    ensures play_takes { (options : Options) → limit_of (task.Play options) ≡ 1048576 }
    ensures watch_takes { (seat number : ℕ) → limit_of (task.Watch seat number) ≡ 1048576 }
    ensures measure_takes { limit_of task.Measure ≡ 33554432 }
    ensures rival_takes { (rival : Rival) → limit_of (task.Rival rival) ≡ 1048576 }
    ensures note { note_line (Looks 600 12) ≡ codes "cache looks 600 hits 12\n" }
    ensures no_note { note_line Nothing ≡ [] }
{}
