ghost use Rattle.std.specs.Prelude.{◌≡◌, ◌↔◌, ℕ, Bool, true, List, Option};
ghost use Rattle.cpu_table.specs.Data.{SetupData};
ghost use Rattle.handler_registry.specs.Registrations.{Registrations};
ghost use Rattle.smram_pool.specs.State.{PoolState};
ghost use Rattle.handler_ops.specs.declared.desk.Desk.{Desk};
ghost use Rattle.handler_ops.specs.declared.need.Need.TheVariants.{Finished};
ghost use Rattle.serving_place.specs.Beginning.{at_begin};
ghost use Rattle.serving_place.specs.Setting.{Setting};
ghost use Rattle.handler_ops.specs.Course.{Course, need_of, step_of};
ghost use Rattle.handler_ops.specs.NextRow.{row_of};
ghost use Rattle.handler_ops.specs.Told.{step_as, need_as};
ghost use Rattle.handler_ops.specs.Needs.{NamesOther};
ghost use Rattle.handler_ops.specs.Conditions.{IsSound, Turn, AllAllowed, said_by, course_of, beginning};
ghost use Rattle.smm_base.specs.declared.kinds.HandlerType.{HandlerType};
ghost use Rattle.serving_place.specs.Serving.{Serving};
ghost use Rattle.serving_place.specs.Forms.{IsWhole, IsPrefix};

/// The course of serving, over each list of found numbers and desks that its conditions allow: what was said so far, with
/// the `run` of each job whose desk came back just before the label that collects it, can be made whole; and the need is
/// `Finished` exactly where it is whole. The conditions hold at the beginning of serving. The row of a course stands for
/// its step. A need that names a processor names one of the platform, and never the boot processor.
pub fn courses()
    ensures prefix { (t : Setting) (w : ℕ) (kinds : List HandlerType) (s : Serving) (there : ℕ → Bool) (turns : List Turn) → IsSound t there s → AllAllowed t there (beginning w kinds s) turns → IsPrefix t.program w kinds s (said_by t (beginning w kinds s) turns) }
    ensures finished { (t : Setting) (w : ℕ) (kinds : List HandlerType) (s : Serving) (there : ℕ → Bool) (turns : List Turn) (held : List (Option Desk)) → IsSound t there s → AllAllowed t there (beginning w kinds s) turns → (need_of t held (course_of t (beginning w kinds s) turns) ≡ Finished) ↔ IsWhole t.program w kinds s (said_by t (beginning w kinds s) turns) }
    ensures begins { (d : SetupData) (g : Registrations) (m : PoolState) (t : Setting) (there : ℕ → Bool) → t.processors ≡ d.processors → there t.me ≡ true → IsSound t there (at_begin d g m) }
    ensures rows { (t : Setting) (held : List (Option Desk)) (c : Course) → step_as t c.place.state (row_of t held c) ≡ step_of t held c }
    ensures names { (t : Setting) (w : ℕ) (kinds : List HandlerType) (s : Serving) (there : ℕ → Bool) (turns : List Turn) (held : List (Option Desk)) → IsSound t there s → AllAllowed t there (beginning w kinds s) turns → NamesOther t.processors t.me (need_of t held (course_of t (beginning w kinds s) turns)) }
    ensures needs { (t : Setting) (held : List (Option Desk)) (c : Course) → need_as (row_of t held c) ≡ need_of t held c }
{}
