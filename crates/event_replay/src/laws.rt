//! A law of events as they are played: the function computes nothing, and what it ensures is the law.

ghost use Rattle.std.specs.Prelude.{◌≤◌, ℕ, List};
ghost use Rattle.session_hub.specs.session_model.Purging.{openings};
ghost use Rattle.session_hub.specs.session_model.script_text.declared.event.ScriptEvent.{ScriptEvent};
ghost use Rattle.event_replay.specs.Played.{played_steps, ArePlayed};

/// No connection opens twice.
pub fn an_event_opens_once()
    ensures exact { (events : List ScriptEvent) (number : ℕ) → ArePlayed events → openings number (played_steps events) ≤ 1 }
{}
