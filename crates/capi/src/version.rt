// Which version of the library this is.
ghost use Rattle.std.specs.Prelude.{◌≡◌};
ghost use Rattle.capi.specs.Version.{library_version};

// 1.0.0, as one number; YSH_VERSION is the header's.
#[unsafe(no_mangle)]
pub extern "C" fn ysh_version() -> u64
    ensures { result ≡ library_version }
{
    1_000_000
}
