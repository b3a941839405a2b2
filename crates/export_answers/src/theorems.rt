// What the contracts of the functions for C amount to, as the contract of a function that does nothing.
ghost use Rattle.export_answers.specs.Determined.{ExportsDetermined};

// Two C structures, each with the buffers that it leaves, that both meet a function's contract for the same input are equal.
pub fn exported_answers_are_determined()
    ensures { ExportsDetermined }
{}
