// What holds of the language, each a theorem that a contract names.
ghost use Rattle.script.specs.Laws.{PrintedCommandsParse, AnswersApart, TicksApart};

// A command that is written in the language is read as that command.
pub fn printed_commands_parse() -> u8
    ensures { PrintedCommandsParse }
{
    0
}

// The text of an answer to a call says which it is.
pub fn answers_apart() -> u8
    ensures { AnswersApart }
{
    0
}

// The text of a tick says whose it is, and who runs in it.
pub fn ticks_apart() -> u8
    ensures { TicksApart }
{
    0
}
