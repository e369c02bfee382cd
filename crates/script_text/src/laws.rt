//! Laws: what is computed line by line is what the definitions say.

ghost use Rattle.std.specs.Prelude.{◌≡◌, ◌≢◌, ◌↔◌, ◌++◌, ◌∷◌, [], ℕ, List, All, Some, Ok, Err};
ghost use Rattle.std.specs.Str.Lines.{lines, strip_carriage_return};
ghost use Rattle.script_text.specs.declared.event.ScriptEvent.{ScriptEvent};
ghost use Rattle.script_text.specs.LineText.{Spells};
ghost use Rattle.script_text.specs.LineReading.{event_of};
ghost use Rattle.script_text.specs.script.Script.{IsScript, IsFirstBadLine};
ghost use Rattle.script_text.specs.script.ScriptReading.{script_of};

/// The lines of a text: one ends at each LF, without the CR before it, and octets after the last LF
/// are a line as they stand.
pub fn lines_are_cut()
    ensures empty { lines [] ≡ [] }
    ensures last { (line : List ℕ) → line ≢ [] → All (λ octet. octet ≢ 10) line → lines line ≡ line ∷ [] }
    ensures first { (line rest : List ℕ) → All (λ octet. octet ≢ 10) line
        → lines (line ++ 10 ∷ rest) ≡ strip_carriage_return line ∷ lines rest }
{}

/// A line gives an event exactly where it is the text of the event.
pub fn lines_are_texts()
    ensures exact { (line : List ℕ) (event : ScriptEvent) → (event_of line ≡ Some event) ↔ Spells line event }
{}

/// A text gives events exactly where it is a script of them, and the number of a line exactly where
/// that is its first bad line.
pub fn scripts_are_read()
    ensures ok { (text : List ℕ) (events : List ScriptEvent)
        → (script_of text ≡ Ok events) ↔ IsScript text events }
    ensures bad { (text : List ℕ) (number : ℕ) → (script_of text ≡ Err number) ↔ IsFirstBadLine text number }
{}
