//! Laws of the definitions, each a function whose contract is the law.
ghost use Rattle.std.specs.Prelude.{ℕ, List};
ghost use Rattle.command_file.specs.Laws.{OneCommand, OneMeaning, OneOutcome, WrittenIsSaid};

/// A line says one command at most.
pub fn one_command()
    ensures { OneCommand }
{}

/// The lines of a file say one list of commands at most.
pub fn one_meaning()
    ensures { OneMeaning }
{}

/// Of a file's bytes either commands are said, or one line is the first bad one, or there are too many
/// lines. So what `read_file` answers where no read failed and no growth was refused is the one that is so.
pub fn one_outcome()
    ensures { (lines : List (List ℕ)) → OneOutcome lines }
{}

/// Commands that lines can say are what a file of their spellings says.
pub fn written_is_said()
    ensures { WrittenIsSaid }
{}
