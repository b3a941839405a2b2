// Which version of the library an archive holds, so that a program can hold it to the header that it was compiled with.
ghost use Rattle.std.specs.Prelude.{◌≡◌};
ghost use Rattle.export_answers.specs.Version.{version};

use export_answers::version::this_version;

#[unsafe(no_mangle)]
pub extern "C" fn deckmarten_version() -> u32
    ensures { result ≡ version }
{
    this_version()
}

// The same by a name that only this version has: whoever looks for it finds out an archive of another one without a call.
#[unsafe(no_mangle)]
pub extern "C" fn deckmarten_version_10002() -> u32
    ensures { result ≡ version }
{
    deckmarten_version()
}
