// The version of the library: a million times the major number, a thousand times the minor one, and the patch number.
ghost use Rattle.std.specs.Prelude.{◌≡◌};
ghost use Rattle.export_answers.specs.Version.{version};

const VERSION: u32 = 10002;

pub fn this_version() -> u32
    ensures { result ≡ version }
{
    VERSION
}
