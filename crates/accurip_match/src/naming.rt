// The name of a disc's response.
ghost use Rattle.std.specs.Prelude.{◌≡◌, ◌-◌, ◌==◌, length, slice_index, IfOk};
ghost use Rattle.std.specs.String.{string_bytes};
ghost use Rattle.disc_toc.specs.Toc.{toc_of};
ghost use Rattle.accurip_match.specs.Name.{response_file, response_name};

use disc_ids::{accurip_ids, freedb_id};
use disc_toc::Layout;
use rip_basics::{Name, Oom};
use std::alloc::{AllocError, Global};

// The name of the disc's file in a folder.
fn file_of(alloc: Global, layout: &Layout) -> Result<String, AllocError>
    ensures { IfOk result (λ made. string_bytes made ≡ response_file (toc_of layout.now)) }
{
    let tracks = layout.starts.as_slice().len();
    let (one, two) = accurip_ids(layout);
    let freedb = freedb_id(layout);
    format!(in alloc; "dBAR-{tracks:03}-{one:08x}-{two:08x}-{freedb:08x}.bin")
}

// Whether a text ends in a slash.
fn is_folder(text: &str) -> bool
    ensures { result ≡ (slice_index text.now (length text.now - 1) == 47) }
{
    let bytes = text.as_bytes();
    !bytes.is_empty() && bytes[bytes.len() - 1] == b'/'
}

/// The name of the response for a disc of this layout, where `resp` is asked for: `resp` itself, or where that ends in
/// `/`, the disc's file in this folder. Oom for want of memory.
pub fn response_name(alloc: Global, resp: &str, layout: &Layout) -> Result<Name, Oom>
    ensures { IfOk result (λ name. name ≡ response_name resp.now (toc_of layout.now)) }
{
    let mut text = String::from_str(alloc, resp)?;
    if is_folder(resp) {
        let file = file_of(alloc, layout)?;
        text.push_str(file.as_str())?;
    }
    Ok(Name::of(text))
}
