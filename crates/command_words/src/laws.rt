//! Laws of the words, for every list of words.

ghost use Rattle.std.specs.Prelude.{◌≡◌, ℕ, List};
ghost use Rattle.command_words.specs.command.Command.{CommandView, IsCommand};

/// Words are one command at most.
pub fn words_have_one_command()
    ensures { (words : List (List ℕ)) (one other : CommandView) → IsCommand words one → IsCommand words other
        → one ≡ other }
{}
