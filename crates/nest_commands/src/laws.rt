//! What holds of what is written and of how it's judged: a function that does nothing and whose contract are the laws.
ghost use Rattle.nest_commands.specs.Circle.{WrittenCodeReplaysSound, WrittenReportTellsOneTotal};

/// The code that `plan` writes for a drawing is judged sound by `replay` over the same drawing, with the pierces that the report tells. It
/// tells one number of pierces alone.
pub fn written_code_replays_sound()
    ensures sound { WrittenCodeReplaysSound }
    ensures one_total { WrittenReportTellsOneTotal }
{}
