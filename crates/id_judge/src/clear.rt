//! The law of clear lines (docs/MACHINE.md, "Judges").

ghost use Rattle.id_judge.specs.Lines.{ClearLines};

/// *Clear lines*, a law: in each run of a graph that the schemas give a program with its inputs, a line names one
/// message. So what the judges say under `AreClear` holds there. Takes no memory.
pub fn clear_lines()
    ensures { ClearLines }
{}
