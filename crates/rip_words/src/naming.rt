// Names of files and folders.
ghost use Rattle.std.specs.Prelude.{◌≡◌};
ghost use Rattle.rip_basics.specs.FileNames.{ends_in_slash};
ghost use Rattle.rip_words.specs.FileNames.{breaks_quotes, is_quotable, name_in_folder};

// A name that ends in `/` is a folder's.
pub(crate) fn ends_in_slash(name: &[u8]) -> bool
    ensures { result ≡ ends_in_slash name.now }
{
    name.len() > 0 && name[name.len() - 1] == b'/'
}

/// The name of a file in its folder: what stands after its last `/`.
pub fn name_in_folder(name: &str) -> &str
    ensures { result.now ≡ name_in_folder name.now }
{
    match name.rfind('/') {
        Some(at) => &name[at + 1..],
        None => name,
    }
}

// A quote mark and the two bytes that end a line can't stand in a name in quote marks.
fn breaks_quotes(byte: u8) -> bool
    ensures { result ≡ breaks_quotes byte }
{
    byte == b'"' || byte == b'\n' || byte == b'\r'
}

// Whether a name may stand in quote marks in a line.
pub(crate) fn is_quotable(name: &[u8]) -> bool
    ensures { result ≡ is_quotable name.now }
{
    for byte in name {
        if breaks_quotes(*byte) {
            return false;
        }
    }
    !name.is_empty()
}
