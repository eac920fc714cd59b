//! A law of words. No function here does anything: its contract is the law.
ghost use Rattle.std.specs.Prelude.{◌≡◌, ℕ, List};
ghost use Rattle.rc_house.specs.declared.command.Command.{Command};
ghost use Rattle.rc_house.specs.Command.{IsCommand};

/// Words are one command at most, with one number and one pair of options.
pub fn words_are_one_command()
    ensures { (words : List (List ℕ)) (command other : Command)
        → IsCommand words command → IsCommand words other → other ≡ command }
{}
