ghost use Rattle.std.specs.Prelude.{◌≡◌, ◌<◌, ◌≤◌, ◌^◌, ℕ, List, length};
ghost use Rattle.sync_words.specs.Texts.{event_line};
ghost use Rattle.sync_words.specs.declared.event.Event.{Event};
ghost use Rattle.trace_text.specs.Spelling.{IsSpelling, StandsAt};

/// The laws of the lines of events. It does nothing when it runs.
pub fn text_laws()
    // No line is that of two events.
    ensures lines { (n : ℕ) → n < 2 ^ 16 → (event other : Event) → IsSpelling n event → IsSpelling n other → event_line n event ≡ event_line n other → event ≡ other }

    // No two events are spelled at one place.
    ensures places { (n : ℕ) → n < 2 ^ 16 → (bytes : List ℕ) (at : ℕ) (event other : Event) → IsSpelling n event → IsSpelling n other → StandsAt bytes at (event_line n event) → StandsAt bytes at (event_line n other) → event ≡ other }

    // No line has more than 128 bytes.
    ensures few { (n : ℕ) → n < 2 ^ 16 → (event : Event) → IsSpelling n event → length (event_line n event) ≤ 128 }
{}
