//! The laws of progress: each function computes nothing, and what it ensures is a law.

ghost use Rattle.std.specs.Prelude.{◌≡◌, ◌≢◌, ◌++◌, ◌∷◌, [], ℕ, List};
ghost use Rattle.session_model.specs.wire_io.declared.journal.Event.{Event};
ghost use Rattle.session_model.specs.wire_io.declared.journal.Item.{Item};
ghost use Rattle.session_model.specs.Rules.{Rules};
ghost use Rattle.session_model.specs.Run.{Step, Away, run};
ghost use Rattle.session_model.specs.Journaled.{StepsOf, WasLater};
ghost use Rattle.session_model.specs.Serving.{Sound, Served};
ghost use Rattle.progress_laws.specs.Taking.{WasLost, TookAll, refusals, HasAllReplies};

/// A connection that took what it was offered has all its replies whenever all is settled, is not on hold, and was hung up
/// if it closed, whatever the other connections do. Where it is still there, no more is asked than that no write to it was
/// answered Later in this block, and where it has left, that it wasn't found lost since it was opened.
pub fn whoever_took_all_has_all_replies<T, W>()
    ensures all { (rules : Rules T W) (tree : T) (steps : List Step) (journal : List Item) (number : ℕ) →
        Served rules tree steps journal → TookAll number journal → HasAllReplies number journal ((run rules tree steps).of number) }
    ensures unrefused { (rules : Rules T W) (tree : T) (steps : List Step) (journal : List Item) (number : ℕ) →
        Served rules tree steps journal → refusals number journal ≡ [] → HasAllReplies number journal ((run rules tree steps).of number) }

    // by where it is
    ensures there { (rules : Rules T W) (tree : T) (steps : List Step) (journal : List Item) (number : ℕ) →
        Served rules tree steps journal → ((run rules tree steps).of number).state ≢ Away → (WasLater number journal → ⊥) →
        HasAllReplies number journal ((run rules tree steps).of number) }
    ensures left { (rules : Rules T W) (tree : T) (steps : List Step) (journal : List Item) (number : ℕ) →
        Served rules tree steps journal → ((run rules tree steps).of number).state ≡ Away → (WasLost number journal → ⊥) →
        HasAllReplies number journal ((run rules tree steps).of number) }
{}

/// What was done before an event serves the connections by the steps before it: so a connection that took what it was offered
/// until then has all its replies whenever an event is heard, of whichever connection, and not at the end alone. And each
/// front of a journal has steps that are its own.
pub fn what_was_done_before_an_event_serves<T, W>()
    ensures exact { (rules : Rules T W) (tree : T) (steps early late : List Step) (journal front back : List Item) (event : Event) →
        Sound rules tree steps journal → steps ≡ early ++ late → journal ≡ front ++ Item.Heard event ∷ back → StepsOf front early →
        Served rules tree early front }
    ensures replies { (rules : Rules T W) (tree : T) (steps early late : List Step) (journal front back : List Item) (event : Event) (number : ℕ) →
        Sound rules tree steps journal → steps ≡ early ++ late → journal ≡ front ++ Item.Heard event ∷ back → StepsOf front early →
        TookAll number front → HasAllReplies number front ((run rules tree early).of number) }
    ensures split { (rules : Rules T W) (tree : T) (steps : List Step) (journal front back : List Item) →
        Sound rules tree steps journal → journal ≡ front ++ back →
        (early : List Step) × (late : List Step) × (steps ≡ early ++ late) × StepsOf front early }
{}
