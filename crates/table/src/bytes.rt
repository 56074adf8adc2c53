// Names and bytes as slices: their ranges.
ghost use Rattle.std.specs.Prelude.{◌≡◌, ◌&&◌, length, nat_le};
ghost use Rattle.promise.specs.Bytes.{all_bytes};
ghost use Rattle.promise.specs.Sheets.{name_ok, bytes_ok};

// Whether a name is in range: 1 to 255 bytes.
pub fn is_name(name: &[u8]) -> bool
    ensures { result ≡ name_ok name.now }
{
    !name.is_empty() && name.len() <= 255
}

// Whether what names are listed after is in range: a name, or nothing.
pub fn is_bound(name: &[u8]) -> bool
    ensures { result ≡ (nat_le (length name.now) 255 && all_bytes name.now) }
{
    name.len() <= 255
}

// Whether a sheet can have these bytes: up to 1 MiB.
pub fn is_content(bytes: &[u8]) -> bool
    ensures { result ≡ bytes_ok bytes.now }
{
    bytes.len() <= 1048576
}
