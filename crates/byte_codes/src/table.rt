// The table of codes.
ghost use Rattle.std.specs.Prelude.{◌≡◌};
ghost use Rattle.scan.specs.Lexer.{start_of};
ghost use Rattle.scan.specs.Codes.{code_of, code_table};

// The code of each byte's class.
const CODES: [u8; 256] = [
    16, 16, 16, 16, 16, 16, 16, 16, 16, 11, 10, 16, 16, 13, 16, 16, 16, 16, 16, 16, 16, 16, 16, 16,
    16, 16, 16, 16, 16, 16, 16, 16, 11, 16, 14, 12, 16, 16, 16, 15, 16, 16, 16, 16, 3, 16, 1, 16,
    16, 16, 16, 16, 16, 16, 16, 16, 16, 16, 16, 16, 16, 2, 16, 16, 16, 16, 16, 16, 16, 16, 16, 16,
    16, 16, 16, 16, 16, 16, 16, 16, 16, 16, 16, 16, 16, 16, 16, 16, 16, 16, 16, 4, 16, 5, 16, 16,
    16, 16, 16, 16, 16, 16, 16, 16, 16, 16, 16, 16, 16, 16, 16, 16, 16, 16, 16, 16, 16, 16, 16, 16,
    16, 16, 16, 6, 16, 7, 16, 16, 16, 16, 16, 16, 16, 16, 16, 16, 16, 16, 16, 16, 16, 16, 16, 16,
    16, 16, 16, 16, 16, 16, 16, 16, 16, 16, 16, 16, 16, 16, 16, 16, 16, 16, 16, 16, 16, 16, 16, 16,
    16, 16, 16, 16, 16, 16, 16, 16, 16, 16, 16, 16, 16, 16, 16, 16, 16, 16, 16, 16, 16, 16, 16, 16,
    16, 16, 16, 16, 16, 16, 16, 16, 16, 16, 16, 16, 16, 16, 16, 16, 16, 16, 16, 16, 16, 16, 16, 16,
    16, 16, 16, 16, 16, 16, 16, 16, 16, 16, 16, 16, 16, 16, 16, 16, 16, 16, 16, 16, 16, 16, 16, 16,
    16, 16, 16, 16, 16, 16, 16, 16, 16, 16, 16, 16, 16, 16, 16, 16,
];

// The table. It is made once for a text, and lent: it then stands on the stack, and a look into it takes an instruction fewer for each
// token than one into a static, whose address the compiler takes anew each time.
#[derive(Clone, Copy)]
pub struct Codes {
    pub codes: [u8; 256],
    ghost is_table: { codes ≡ code_table },
}

impl Codes {
    pub fn new() -> Codes
        ensures { result.codes ≡ code_table }
    {
        Codes { codes: CODES }
    }

    pub fn code_of(&self, b: u8) -> u8
        ensures { result ≡ code_of (start_of b) }
    {
        self.codes[b as usize]
    }
}
