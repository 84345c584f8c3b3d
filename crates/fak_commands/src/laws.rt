//! The laws of the program's command line.

ghost use Rattle.std.specs.Prelude.{◌≡◌, ℕ, [], ◌∷◌, codes};
ghost use Rattle.fak_replay.specs.declared.command.Command.TheVariants.{Replay, Check, Run};
ghost use Rattle.fak_commands.specs.Commands.{Asks, command_line};
ghost use Rattle.fak_commands.specs.Names.{all_names};

/// The grammar takes three subcommands and one option, each by one name: no alias, no character, and no option of `clap`'s own.
pub fn the_names_of_the_command_line_are_known()
    ensures { all_names command_line
        ≡ (codes "fak" ∷ [], []) ∷ (codes "replay" ∷ [], []) ∷ (codes "check" ∷ [], [])
        ∷ (codes "run" ∷ [], (codes "processors" ∷ [], []) ∷ []) ∷ [] }
{}

/// What known words ask for: 1 processor if the option is not given, and 1 to 8 if it is.
pub fn known_words_ask_for_known_commands()
    ensures replay { Asks (codes "fak" ∷ codes "replay" ∷ []) Replay }
    ensures check { Asks (codes "fak" ∷ codes "check" ∷ []) Check }
    ensures default { Asks (codes "fak" ∷ codes "run" ∷ []) (Run 1) }
    ensures least { Asks (codes "fak" ∷ codes "run" ∷ codes "--processors=1" ∷ []) (Run 1) }
    ensures most { Asks (codes "fak" ∷ codes "run" ∷ codes "--processors" ∷ codes "8" ∷ []) (Run 8) }
    ensures too_many { (n : ℕ) → Asks (codes "fak" ∷ codes "run" ∷ codes "--processors=9" ∷ []) (Run n) → ⊥ }
    ensures none { (n : ℕ) → Asks (codes "fak" ∷ codes "run" ∷ codes "--processors" ∷ codes "0" ∷ []) (Run n) → ⊥ }
{}
