//! Laws over the definitions, whatever the trees, the requesters and the answers are: each function computes nothing,
//! and what it ensures is a law.

ghost use Rattle.std.specs.Prelude.{◌≡◌, ◌≢◌, ◌≤◌, ◌+◌, ◌-◌, ◌++◌, ◌∷◌, [], ℕ, length, take, cond, List, filter, Some, None, Bool, true, false, Option};
ghost use Rattle.wire_io.specs.declared.journal.Item.{Item};
ghost use Rattle.wire_io.specs.Journal.{heard as heard_events, stored_of};
ghost use Rattle.session_model.specs.Rules.{Rules, AnswersExtend, talk, said, up_to};
ghost use Rattle.session_model.specs.ldap_msg.declared.kinds.Frame.TheVariants.{Whole};
ghost use Rattle.session_model.specs.ldap_msg.Streams.{frame_at};
ghost use Rattle.session_model.specs.Run.{Sessions, Step, Open, Bytes, step, start, run, new_messages};
ghost use Rattle.session_model.specs.Kept.{Kept, Held, heard, taken_off, kept_of, closing_of, forgotten};
ghost use Rattle.session_model.specs.Keeping.{Keeps, IsNew, more_taken};
ghost use Rattle.session_model.specs.Journaled.{StepsOf, HasNoCut, steps_of, steps_of_events, is_event};
ghost use Rattle.session_model.specs.Hearing.{BringOnly};
ghost use Rattle.session_model.specs.Joined.{and_then, LeavesAlike};
ghost use Rattle.std.specs.List.{AllByRecursion};
ghost use Rattle.session_model.specs.Replaying.{number_of, replayed, hung_up, step_and_hang_up};
ghost use Rattle.session_model.specs.Serving.{Sound, Served, IsFront, IsStoredFront};
ghost use Rattle.session_model.specs.AnsweredMessages.{AreAlike, AreOver, AreHeldOver, IsAnsweredAlike, over, held_over, answered_messages, answered_of_step, answered_of_run, answered_of_replay, answered_of_held};
ghost use Rattle.session_model.specs.Purging.{purged, openings, finds_room, answered_of_connection, finds_room_in_replay, answered_in_replay};
ghost use Rattle.session_model.specs.Places.{CompletesOne, IsPassing, asker_of, asker_in, passes, places, places_of_replay, places_of_step, standing, standing_behind};

/// What a server holds stays true to its sessions at each step, as long as no number is opened twice.
pub fn keeps_each_step<T, W>()
    ensures { (rules : Rules T W) (sessions : Sessions T W) (taken : ℕ → ℕ) (held : Held T W) (next : Step) →
        IsNew sessions next → Keeps sessions taken held → Keeps (step rules sessions next) taken (heard rules next held) }
{}

/// A step opens no number that was opened before, where its number opens once among all steps.
pub fn a_number_that_opens_once_is_new<T, W>()
    ensures run { (rules : Rules T W) (tree : T) (early late : List Step) (next : Step) →
        openings (number_of next) (early ++ next ∷ late) ≤ 1 → IsNew (run rules tree early) next }
    ensures replay { (rules : Rules T W) (tree : T) (early late : List Step) (next : Step) →
        openings (number_of next) (early ++ next ∷ late) ≤ 1 → IsNew (replayed rules tree early) next }
{}

/// What a server holds stays true to its sessions as octets are taken of a connection's queue.
pub fn keeps_each_taking<T, W>()
    ensures { (sessions : Sessions T W) (taken : ℕ → ℕ) (held : Held T W) (number count : ℕ) →
        Keeps sessions taken held → taken number + count ≤ length (sessions.of number).reply →
        Keeps sessions (more_taken number count taken) (record held { kept = taken_off number count held.kept }) }
{}

/// Octets leave the same in two pieces as in one, however they are cut (RFC 4511 5).
pub fn pieces_join<T, W>()
    ensures { (rules : Rules T W) (sessions : Sessions T W) (number : ℕ) (piece more : List ℕ) →
        LeavesAlike number
        (step rules (step rules sessions (Bytes number piece None)) (Bytes number more None))
        (step rules sessions (Bytes number (piece ++ more) None)) }
{}

/// Messages are answered one after the other: first some of them, and then, unless the connection
/// closes, those that follow, by the tree and the requester that the first left.
pub fn talk_goes_on<T, W>()
    ensures { (rules : Rules T W) (tree : T) (who : W) (messages more : List (List ℕ)) →
        let first = talk rules tree who messages in
        talk rules tree who (messages ++ more) ≡ and_then first (talk rules first.tree first.who more) }
{}

/// Steps without a cut are those of the journal, and the events among a journal's steps are those
/// of the events heard.
pub fn own_steps()
    ensures uncut { (journal : List Item) (steps : List Step) → StepsOf journal steps → HasNoCut steps → steps ≡ steps_of journal }
    ensures events { (journal : List Item) → filter is_event (steps_of journal) ≡ steps_of_events (heard_events journal) }
{}

/// Messages are answered alike over two trees where each of them is that is answered, for the requester for whom
/// it is: the same octets are sent, the same requester is left, and each tree stays. So it is with what ends them,
/// and where they are cut.
pub fn messages_are_answered_alike<T, W>()
    ensures talk { (rules : Rules T W) (one other : T) (who : W) (messages : List (List ℕ)) →
        AllByRecursion (IsAnsweredAlike rules other) (answered_messages rules one who messages) →
        AreAlike one other (talk rules one who messages) (talk rules other who messages) }
    ensures said { (rules : Rules T W) (one other : T) (who : W) (cut : Option ℕ) (messages : List (List ℕ)) (broken : Bool) →
        AllByRecursion (IsAnsweredAlike rules other) (answered_messages rules one who (up_to cut messages)) →
        AreAlike one other (said rules cut one who messages broken) (said rules cut other who messages broken) }
{}

/// Steps leave the same sessions over two trees where each message is answered alike, of whatever connection it
/// is; so do events where each connection that closes is hung up at once.
pub fn runs_are_alike<T, W>()
    ensures step { (rules : Rules T W) (other : T) (sessions : Sessions T W) (next : Step) →
        AllByRecursion (IsAnsweredAlike rules other) (answered_of_step rules sessions next) →
        AreOver sessions.tree other (step rules sessions next) (step rules (over other sessions) next) }
    ensures run { (rules : Rules T W) (one other : T) (steps : List Step) →
        AllByRecursion (IsAnsweredAlike rules other) (answered_of_run rules (start rules one) steps) →
        AreOver one other (run rules one steps) (run rules other steps) }
    ensures replay { (rules : Rules T W) (one other : T) (steps : List Step) →
        AllByRecursion (IsAnsweredAlike rules other) (answered_of_replay rules (start rules one) steps) →
        AreOver one other (replayed rules one steps) (replayed rules other steps) }
{}

/// What a server holds is left the same by a step over two trees, where each message is answered alike.
pub fn held_alike_leaves_the_same<T, W>()
    ensures exact { (rules : Rules T W) (other : T) (held : Held T W) (next : Step) →
        AllByRecursion (IsAnsweredAlike rules other) (answered_of_held rules held next) →
        AreHeldOver held.tree other (heard rules next held) (heard rules next (held_over other held)) }
{}

/// The messages that a step answers are the same by what a server holds as by its sessions.
pub fn sessions_are_kept_alike<T, W>()
    ensures exact { (rules : Rules T W) (sessions : Sessions T W) (taken : ℕ → ℕ) (held : Held T W) (next : Step) →
        Keeps sessions taken held → answered_of_step rules sessions next ≡ answered_of_held rules held next }
{}

/// A connection is left the same by the steps of all as by its own alone, which opens once at most and then finds
/// room, where each of its messages is answered over the tree that is then there as over that of the beginning. So it
/// is where events are replayed; and what a link took of it is a front of what it gets alone.
pub fn steps_of_others_do_not_show<T, W>()
    ensures exact { (rules : Rules T W) (tree : T) (number : ℕ) (steps : List Step) → openings number steps ≤ 1 →
        finds_room rules number (start rules tree) steps ≡ true →
        AllByRecursion (IsAnsweredAlike rules tree) (answered_of_connection rules number (start rules tree) steps) →
        (run rules tree steps).of number ≡ (run rules tree (purged number steps)).of number }
    ensures replay { (rules : Rules T W) (tree : T) (number : ℕ) (events : List Step) → openings number events ≤ 1 →
        finds_room_in_replay rules number (start rules tree) events ≡ true →
        AllByRecursion (IsAnsweredAlike rules tree) (answered_in_replay rules number (start rules tree) events) →
        (replayed rules tree events).of number ≡ (replayed rules tree (purged number events)).of number }
    ensures taken { (rules : Rules T W) (tree : T) (number : ℕ) (steps : List Step) (journal : List Item) →
        Sound rules tree steps journal → openings number steps ≤ 1 →
        finds_room rules number (start rules tree) steps ≡ true →
        AllByRecursion (IsAnsweredAlike rules tree) (answered_of_connection rules number (start rules tree) steps) →
        IsFront journal number ((run rules tree (purged number steps)).of number) }
{}

/// A journal that serves its connections over a tree serves them over another, where each message that its steps
/// answer is answered alike; with its last block unfinished too.
pub fn a_journal_serves_alike<T, W>()
    ensures served { (rules : Rules T W) (one other : T) (steps : List Step) (journal : List Item) →
        AllByRecursion (IsAnsweredAlike rules other) (answered_of_run rules (start rules one) steps) →
        Served rules one steps journal → Served rules other steps journal }
    ensures sound { (rules : Rules T W) (one other : T) (steps : List Step) (journal : List Item) →
        AllByRecursion (IsAnsweredAlike rules other) (answered_of_run rules (start rules one) steps) →
        Sound rules one steps journal → Sound rules other steps journal }
{}

/// No octets of a reply leave while a change isn't stored that was made before: wherever they are taken, what was stored is
/// all changes so far.
pub fn nothing_is_taken_before_it_is_stored<T, W>()
    ensures exact { (rules : Rules T W) (tree : T) (steps : List Step) (journal : List Item) → Sound rules tree steps journal →
        (early late : List Step) (front back : List Item) (number : ℕ) (octets : List ℕ) →
        steps ≡ early ++ late → journal ≡ front ++ Item.Taken number octets ∷ back → StepsOf front early →
        stored_of front ≡ (run rules tree early).changes }
{}

/// At each moment what was stored is a front of the changes so far, in their order and with nothing else in it.
pub fn what_is_stored_is_a_front_of_the_changes<T, W>()
    ensures exact { (rules : Rules T W) (tree : T) (steps : List Step) (journal : List Item) → Sound rules tree steps journal →
        (early late : List Step) (front back : List Item) →
        steps ≡ early ++ late → journal ≡ front ++ back → StepsOf front early → IsStoredFront (run rules tree early) front }
{}

/// What a server holds tells at each step which of the changes aren't stored yet.
pub fn keeps_what_is_not_stored<T, W>()
    ensures exact { (rules : Rules T W) (sessions : Sessions T W) (taken : ℕ → ℕ) (held : Held T W) (next : Step) (stored : List ℕ) →
        Keeps sessions taken held → sessions.changes ≡ stored ++ held.unstored →
        (step rules sessions next).changes ≡ stored ++ (heard rules next held).unstored }
{}

/// A test of the tree and of all changes so far that each answer keeps, of messages that are allowed, is passed at the end of
/// a run whose messages are allowed, and where events are replayed.
pub fn what_answers_keep_of_changes_a_run_keeps<T, W>()
    ensures run { (rules : Rules T W) (allowed : List ℕ → Bool) (test : T → List ℕ → Bool) (tree : T) (steps : List Step) →
        AnswersExtend rules (λ message. allowed message ≡ true) (λ left changes. test left changes ≡ true) →
        AllByRecursion (λ asked. allowed asked.message ≡ true) (answered_of_run rules (start rules tree) steps) →
        test tree [] ≡ true → test (run rules tree steps).tree (run rules tree steps).changes ≡ true }
    ensures replay { (rules : Rules T W) (allowed : List ℕ → Bool) (test : T → List ℕ → Bool) (tree : T) (events : List Step) →
        AnswersExtend rules (λ message. allowed message ≡ true) (λ left changes. test left changes ≡ true) →
        AllByRecursion (λ asked. allowed asked.message ≡ true) (answered_of_replay rules (start rules tree) events) →
        test tree [] ≡ true → test (replayed rules tree events).tree (replayed rules tree events).changes ≡ true }
{}

/// Messages are made of the octets that came: where each of these passes a test, each octet of a message that is answered does.
pub fn messages_are_made_of_what_came<T, W>()
    ensures exact { (rules : Rules T W) (test : ℕ → Bool) (tree : T) (steps : List Step) →
        BringOnly (λ octet. test octet ≡ true) steps →
        AllByRecursion (λ asked. AllByRecursion (λ octet. test octet ≡ true) asked.message) (answered_of_run rules (start rules tree) steps) }
{}

/// Where each place of a connection passes tests, it finds room whenever it opens, and each of its messages that is
/// answered passes them over the tree and for the requester with which it is; in a run, and where events are replayed.
pub fn what_a_connection_meets<T, W>()
    ensures room { (rules : Rules T W) (allows : T → W → Bool) (reads : List ℕ → Bool) (number : ℕ) (tree : T) (steps : List Step) →
        AllByRecursion (λ place. passes allows reads place ≡ true) (places rules number tree steps) →
        finds_room rules number (start rules tree) steps ≡ true }
    ensures messages { (rules : Rules T W) (allows : T → W → Bool) (reads : List ℕ → Bool) (number : ℕ) (tree : T) (steps : List Step) →
        AllByRecursion (λ place. passes allows reads place ≡ true) (places rules number tree steps) →
        AllByRecursion (IsPassing allows reads) (answered_of_connection rules number (start rules tree) steps) }
    ensures replay_room { (rules : Rules T W) (allows : T → W → Bool) (reads : List ℕ → Bool) (number : ℕ) (tree : T) (events : List Step) →
        AllByRecursion (λ place. passes allows reads place ≡ true) (places_of_replay rules number tree events) →
        finds_room_in_replay rules number (start rules tree) events ≡ true }
    ensures replay_messages { (rules : Rules T W) (allows : T → W → Bool) (reads : List ℕ → Bool) (number : ℕ) (tree : T) (events : List Step) →
        AllByRecursion (λ place. passes allows reads place ≡ true) (places_of_replay rules number tree events) →
        AllByRecursion (IsPassing allows reads) (answered_in_replay rules number (start rules tree) events) }
{}

/// The places of a piece of octets may be looked at message by message: the one behind its first message, where that has
/// been heard and answered, and then those of what is left of the piece. A piece that completes no message, or isn't of an
/// open connection, has one place, after it.
pub fn a_piece_is_heard_message_by_message<T, W>()
    ensures run { (rules : Rules T W) (number heard other : ℕ) (sessions : Sessions T W) (piece more message : List ℕ) →
        CompletesOne sessions other piece message →
        let first = step rules sessions (Bytes other piece None) in
        places_of_step rules (step rules) number heard sessions (Bytes other (piece ++ more) None)
        ≡ standing_behind number heard other message first ∷ places_of_step rules (step rules) number heard first (Bytes other more None) }
    ensures replay { (rules : Rules T W) (number heard other : ℕ) (sessions : Sessions T W) (piece more message : List ℕ) →
        CompletesOne sessions other piece message →
        let first = step rules sessions (Bytes other piece None) in
        places_of_step rules (step_and_hang_up rules) number heard sessions (Bytes other (piece ++ more) None)
        ≡ standing_behind number heard other message first ∷ places_of_step rules (step_and_hang_up rules) number heard first (Bytes other more None) }
    ensures none { (rules : Rules T W) (after : Sessions T W → Step → Sessions T W) (number heard other : ℕ) (sessions : Sessions T W) (piece : List ℕ) →
        new_messages (sessions.of other).stream piece ≡ [] →
        places_of_step rules after number heard sessions (Bytes other piece None) ≡ standing number heard (after sessions (Bytes other piece None)) ∷ [] }
    ensures closed { (rules : Rules T W) (after : Sessions T W → Step → Sessions T W) (number heard other : ℕ) (sessions : Sessions T W) (piece : List ℕ) →
        (sessions.of other).state ≢ Open →
        places_of_step rules after number heard sessions (Bytes other piece None) ≡ standing number heard (after sessions (Bytes other piece None)) ∷ [] }
{}

/// What a server holds shows where a connection's next message ends, and who asks on it: a frame at the front of what is
/// unread and of a piece tells how much of the piece completes that message; where none stands there, the piece completes none.
pub fn what_is_kept_shows_the_next_message<T, W>()
    ensures one { (sessions : Sessions T W) (taken : ℕ → ℕ) (held : Held T W) (other count : ℕ) (connection : Kept W) (piece : List ℕ) →
        Keeps sessions taken held → kept_of other held.kept ≡ Some connection → connection.closing ≡ false →
        frame_at (connection.rest ++ piece) ≡ Whole count →
        CompletesOne sessions other (take (count - length connection.rest) piece) (take count (connection.rest ++ piece)) }
    ensures none { (sessions : Sessions T W) (taken : ℕ → ℕ) (held : Held T W) (other : ℕ) (connection : Kept W) (piece : List ℕ) →
        Keeps sessions taken held → kept_of other held.kept ≡ Some connection → connection.closing ≡ false →
        ((count : ℕ) → frame_at (connection.rest ++ piece) ≢ Whole count) → new_messages (sessions.of other).stream piece ≡ [] }
    ensures closed { (sessions : Sessions T W) (taken : ℕ → ℕ) (held : Held T W) (other : ℕ) →
        Keeps sessions taken held → asker_in (kept_of other held.kept) ≡ None → (sessions.of other).state ≢ Open }
    ensures asks { (sessions : Sessions T W) (taken : ℕ → ℕ) (held : Held T W) (number : ℕ) →
        Keeps sessions taken held → asker_of (sessions.of number) ≡ asker_in (kept_of number held.kept) }
{}

/// What a server holds is true to sessions that are left alike, as those of a piece and of its parts are; and it stays true to
/// its sessions where a connection that is to be hung up is, and forgotten.
pub fn what_is_kept_is_of_sessions_left_alike<T, W>()
    ensures alike { (number : ℕ) (sessions others : Sessions T W) (taken : ℕ → ℕ) (held : Held T W) →
        LeavesAlike number sessions others → Keeps sessions taken held → Keeps others taken held }
    ensures hung_up { (rules : Rules T W) (number : ℕ) (sessions : Sessions T W) (taken : ℕ → ℕ) (held : Held T W) → Keeps sessions taken held →
        Keeps (hung_up rules number sessions) taken
        (record held { kept = cond (closing_of number held.kept) (forgotten number held.kept) held.kept }) }
{}
