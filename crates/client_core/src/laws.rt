//! The law of a client's script: the function computes nothing, and what it ensures is a law.

ghost use Rattle.std.specs.Prelude.{List};
ghost use Rattle.script_text.specs.script.Script.{IsScript};
ghost use Rattle.client_core.specs.declared.types.Asked.{Asked};
ghost use Rattle.client_core.specs.Scripts.{ask_events, ask_script, HaveOctets};

/// The script of requests is one of the events that they are sent by.
pub fn requests_are_sent_by_their_script()
    ensures exact { (asked : List Asked) → HaveOctets asked → IsScript (ask_script asked) (ask_events asked) }
{}
