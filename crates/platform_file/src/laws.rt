ghost use Rattle.std.specs.Prelude.{◌↔◌, IsTrue, List, map};
ghost use Rattle.std.specs.List.{IsDistinct};
ghost use Rattle.cpu_table.specs.Distinct.{are_distinct};
ghost use Rattle.cpu_table.specs.Ranges.{same_text, same_visit};
ghost use Rattle.cpu_table.specs.declared.handlers.HandlerDef.{HandlerDef};
ghost use Rattle.cpu_table.specs.declared.handlers.ProcedureDef.{ProcedureDef};
ghost use Rattle.cpu_table.specs.declared.setup.CauseAt.{CauseAt};

/// The test of a platform's lists, that no two of their items are the same, in std's word for distinct keys. It does nothing when it runs.
pub fn distinct_laws()
    // No two handlers have one name, and no two procedures.
    ensures handlers { (handlers : List HandlerDef) → IsTrue (are_distinct (λ a b. same_text a.name b.name) handlers) ↔ IsDistinct same_text (map (λ handler. handler.name) handlers) }
    ensures procedures { (procedures : List ProcedureDef) → IsTrue (are_distinct (λ a b. same_text a.name b.name) procedures) ↔ IsDistinct same_text (map (λ procedure. procedure.name) procedures) }

    // No two causes are those of one visit of one processor.
    ensures causes { (causes : List CauseAt) → IsTrue (are_distinct same_visit causes) ↔ IsDistinct same_visit causes }
{}
