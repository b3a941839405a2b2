// That the records of structs are these structs, as the contract of a function that does nothing.
ghost use Rattle.struct_records.specs.Structs.{KindsAndLengthsKept};

// The byte form reads from the records of a list of structs the kinds and lengths that the structs have.
pub fn kinds_and_lengths_are_kept()
    ensures { KindsAndLengthsKept }
{}
