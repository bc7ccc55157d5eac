//! What words ask for is one thing.

ghost use Rattle.std.specs.Prelude.{◌≡◌, ℕ, List};
ghost use Rattle.command_words.specs.Commands.{CommandValue, AsksForCommand};

/// Words ask for one command at most.
pub fn commands_law()
    ensures { (words : List (List ℕ)) (a b : CommandValue) → AsksForCommand words a → AsksForCommand words b → a ≡ b }
{}
