// Which version of the library this is, as capi has it.
ghost use Rattle.std.specs.Prelude.{◌≡◌};
ghost use Rattle.capi.specs.Version.{version_number, layout_number};

#[unsafe(no_mangle)]
pub extern "C" fn katydidzinc_version() -> u32
    ensures { result ≡ version_number }
{
    capi::version::katydidzinc_version()
}

#[unsafe(no_mangle)]
pub extern "C" fn katydidzinc_layout() -> u32
    ensures { result ≡ layout_number }
{
    capi::version::katydidzinc_layout()
}
