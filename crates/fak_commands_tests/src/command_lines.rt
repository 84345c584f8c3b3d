//! Conclusions about the program's command line, from its laws.

ghost use Rattle.std.specs.Prelude.{◌≡◌, ◌∷◌, [], codes, length};
ghost use Rattle.fak_commands.specs.Commands.{Asks, command_line};
ghost use Rattle.fak_commands.specs.Names.{all_names};
ghost use Rattle.fak_replay.specs.declared.command.Command.{Command};
ghost use Rattle.fak_replay.specs.declared.command.Command.TheVariants.{Replay, Run};

use fak_commands::laws::{
    known_words_ask_for_known_commands, the_names_of_the_command_line_are_known,
};

/// The program and its three subcommands are all commands that have a name.
pub fn four_commands_have_names()
    ensures { length (all_names command_line) ≡ 4 }
{
    the_names_of_the_command_line_are_known();
}

/// The word `run` asks for a run on one processor, and the word `replay` for a replay. Neither asks for another command.
pub fn a_word_asks_for_one_command()
    ensures run { (command : Command) → Asks (codes "fak" ∷ codes "run" ∷ []) command → command ≡ Run 1 }
    ensures replay { (command : Command) → Asks (codes "fak" ∷ codes "replay" ∷ []) command → command ≡ Replay }
{
    known_words_ask_for_known_commands();
}
