//! The first word, which names the command.
ghost use Rattle.std.specs.Prelude.{◌≡◌, map, string_bytes};
ghost use Rattle.hlo_cmd.specs.Words.{asked_command, command_named, first_word};

/// The commands.
#[derive(Clone, Copy, PartialEq, Eq)]
pub(crate) enum CommandName {
    Opt,
    Check,
    Run,
    RunIl,
    Train,
    /// The word names none of them.
    Other,
}

/// The command that the first word names.
pub(crate) fn asked_command(words: &[String]) -> CommandName
    ensures { result ≡ asked_command (map string_bytes words.now) }
{
    command_named(first_word(words))
}

/// The command of this name.
fn command_named(word: &str) -> CommandName
    ensures { result ≡ command_named word.now }
{
    if word == "opt" {
        CommandName::Opt
    } else if word == "check" {
        CommandName::Check
    } else if word == "run" {
        CommandName::Run
    } else if word == "runil" {
        CommandName::RunIl
    } else if word == "train" {
        CommandName::Train
    } else {
        CommandName::Other
    }
}

/// The first word, or nothing where there is none.
fn first_word(words: &[String]) -> &str
    ensures { result.now ≡ first_word (map string_bytes words.now) }
{
    match words.first() {
        Some(word) => word.as_str(),
        None => "",
    }
}
