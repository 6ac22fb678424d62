ghost use Rattle.std.specs.Prelude.{◌↔◌, ℕ, List, [], ◌∷◌};
ghost use Rattle.smm_base.specs.declared.kinds.HandlerType.{HandlerType};
ghost use Rattle.serving_place.specs.Serving.{Serving};
ghost use Rattle.serving_place.specs.Forms.{Program, Event, IsWhole};
ghost use Rattle.serving_place.specs.Places.{Place, StillToSay, Accepts, next, at_first, IsOver};
ghost use Rattle.serving_place.specs.Stands.{StandsFor, Follows, Leads, Kept};

/// What is still to be said after an event is what the place has still to say after its step; nothing is left exactly
/// where serving is over; and from every place some list is what is left.
pub fn serving_lists()
    ensures step { (program : Program) (p : Place) (e : Event) (es : List Event) → StillToSay program p (e ∷ es) ↔ (Accepts program p e × StillToSay program (next program p e) es) }
    ensures over { (program : Program) (p : Place) → StillToSay program p [] ↔ IsOver p }
    ensures rest { (program : Program) (p : Place) → (es : List Event) × StillToSay program p es }
{}

/// A place begins by standing for the empty list. Where it stands for a list it takes an event exactly where the list
/// with the event is a prefix of a whole list, and the place after that stands for it; and it is over exactly where the
/// list is whole. A registration that is live at a later place, with a number that was given before, was live before.
pub fn standing()
    ensures begins { (program : Program) (w : ℕ) (kinds : List HandlerType) (s : Serving) → StandsFor program w kinds s (at_first w kinds s) [] }
    ensures follows { (program : Program) (w : ℕ) (kinds : List HandlerType) (s : Serving) (p : Place) (es : List Event) (e : Event) → StandsFor program w kinds s p es → Follows program w kinds s p es e }
    ensures whole { (program : Program) (w : ℕ) (kinds : List HandlerType) (s : Serving) (p : Place) (es : List Event) → StandsFor program w kinds s p es → IsOver p ↔ IsWhole program w kinds s es }
    ensures kept { (program : Program) (p : Place) (es : List Event) (q : Place) → Leads program p es q → Kept p.state q.state }
{}
