//! What holds of the moves of code: a function that does nothing and whose contract is the law.
ghost use Rattle.ngc_meaning.specs.CodeMoves.{MovesOfCodeAreSuch};

/// The moves of a code without a fault are such as code gives.
pub fn moves_of_code_are_such()
    ensures { MovesOfCodeAreSuch }
{}
