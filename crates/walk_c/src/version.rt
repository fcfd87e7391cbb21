// The version of the interface, one number for the header, the bindings and this call.
ghost use Rattle.std.specs.Prelude.{◌≡◌};
ghost use Rattle.walk_c.specs.Version.{version};

// 0.6.0: 1,000,000 for each major, 1,000 for each minor, 1 for each patch.
#[unsafe(no_mangle)]
pub extern "C" fn walkprint_version() -> u64
    ensures { result ≡ version }
{
    6000
}
