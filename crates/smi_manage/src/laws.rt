ghost use Rattle.std.specs.Prelude.{◌≡◌, List, [], ◌∷◌, ◌++◌};
ghost use Rattle.smm_base.specs.declared.kinds.HandlerType.{HandlerType};
ghost use Rattle.smm_base.specs.declared.status.Status.{Status};
ghost use Rattle.handler_registry.specs.Registrations.{Registrations, IsRegistered};
ghost use Rattle.smi_manage.specs.Answers.{answer_of};
ghost use Rattle.smi_manage.specs.Walks.{Walk, begun, answered, answer_so_far, HasAnswers};
ghost use Rattle.smi_manage.specs.Calls.{Turn, calls, serials_on, due};

/// The laws of walks. It does nothing when it runs.
pub fn walk_laws()
    // What a walk keeps is that of its statuses so far, and its answer is the answer to them.
    ensures at_first { (kind : HandlerType) (state : Registrations) → HasAnswers (begun kind state) [] }
    ensures one_more { (walk : Walk) (statuses : List Status) (status : Status) → HasAnswers walk statuses → HasAnswers (answered status walk) (statuses ++ status ∷ []) }
    ensures answer { (walk : Walk) (statuses : List Status) → HasAnswers walk statuses → answer_so_far walk ≡ answer_of walk.kind statuses }

    // A walk calls, in the order of registration, those that were live when it began and still are
    // when their turn comes, up to and with the one whose answer stops it.
    ensures calls { (kind : HandlerType) (state : Registrations) (turns : List Turn) → IsRegistered state → calls (begun kind state) state turns ≡ due kind (serials_on kind state) state turns }
{}
