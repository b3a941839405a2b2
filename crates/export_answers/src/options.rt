// What a caller chooses, as a C structure.

// The mode's number: 0 is crate mode, 1 brace mode.
#[repr(C)]
#[derive(Clone, Copy)]
pub struct ExportedOptions {
    pub mode: u32,
}
