// Which version of the library this is, and of the records that it reads and writes.
ghost use Rattle.std.specs.Prelude.{◌≡◌};
ghost use Rattle.capi.specs.Version.{version_number, layout_number};

// The three numbers of the file VERSION.
pub const VERSION_MAJOR: u32 = 1;

pub const VERSION_MINOR: u32 = 0;

pub const VERSION_PATCH: u32 = 0;

// Another number wherever a record has another width, or its parts another order.
pub const LAYOUT: u32 = 1;

#[unsafe(no_mangle)]
pub extern "C" fn katydidzinc_version() -> u32
    ensures { result ≡ version_number }
{
    VERSION_MAJOR * 1000000 + VERSION_MINOR * 1000 + VERSION_PATCH
}

#[unsafe(no_mangle)]
pub extern "C" fn katydidzinc_layout() -> u32
    ensures { result ≡ layout_number }
{
    LAYOUT
}
