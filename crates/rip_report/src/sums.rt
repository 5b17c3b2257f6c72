// The lines of a disc's ids, and of the sums of its tracks.
ghost use Rattle.std.specs.Prelude.{◌≡◌, ◌++◌, codes, IfOk};
ghost use Rattle.std.specs.String.{string_bytes};
ghost use Rattle.disc_toc.specs.Toc.{toc_of};
ghost use Rattle.rip_report.specs.Texts.{line};
ghost use Rattle.rip_report.specs.Sums.{disc_line, id_lines, sums_text, track_line, track_lines};

use accurip_sums::Sums;
use disc_ids::{accurip_ids, freedb_id, musicbrainz_id, store_key};
use disc_toc::Layout;
use parity_store::id_text;
use std::alloc::{AllocError, Global};

fn disc_line(alloc: Global, layout: &Layout) -> Result<String, AllocError>
    ensures { IfOk result (λ made. string_bytes made ≡ disc_line (toc_of layout.now)) }
{
    let tracks = layout.starts.as_slice().len();
    let (one, two) = accurip_ids(layout);
    let freedb = freedb_id(layout);
    format!(in alloc; "disc {tracks:03}-{one:08x}-{two:08x}-{freedb:08x}\n")
}

fn two_lines(alloc: Global, musicbrainz: &str, key: &str) -> Result<String, AllocError>
    ensures { IfOk result (λ made. string_bytes made ≡ line (codes "musicbrainz " ++ musicbrainz.now) ++ line (codes "key " ++ key.now)) }
{
    format!(in alloc; "musicbrainz {musicbrainz}\nkey {key}\n")
}

#[tactic(auto, unfolding(crate::specs::Sums::id_lines))]
fn id_lines(alloc: Global, layout: &Layout) -> Result<String, AllocError>
    ensures { IfOk result (λ made. string_bytes made ≡ id_lines (toc_of layout.now)) }
{
    let Ok(musicbrainz) = musicbrainz_id(alloc, layout) else {
        return Err(AllocError);
    };
    let Ok(key) = store_key(alloc, layout) else {
        return Err(AllocError);
    };
    two_lines(alloc, id_text(&musicbrainz), id_text(&key))
}

fn track_line(alloc: Global, number: usize, sums: Sums) -> Result<String, AllocError>
    ensures { IfOk result (λ made. string_bytes made ≡ track_line number sums) }
{
    let v1 = sums.v1;
    let v2 = sums.v2;
    format!(in alloc; "track {number:02} v1 {v1:08x} v2 {v2:08x}\n")
}

fn track_lines(alloc: Global, sums: &[Sums]) -> Result<String, AllocError>
    ensures { IfOk result (λ made. string_bytes made ≡ track_lines 1 sums.now) }
{
    let mut text = String::new(alloc);
    for (i, pair) in sums.iter().enumerate() {
        let line = track_line(alloc, i + 1, *pair)?;
        text.push_str(line.as_str())?;
    }
    Ok(text)
}

pub(crate) fn sums_lines(
    alloc: Global,
    layout: &Layout,
    sums: &[Sums],
) -> Result<String, AllocError>
    ensures { IfOk result (λ made. string_bytes made ≡ sums_text (toc_of layout.now) sums.now) }
{
    let mut text = disc_line(alloc, layout)?;
    let ids = id_lines(alloc, layout)?;
    let tracks = track_lines(alloc, sums)?;
    text.push_str(ids.as_str())?;
    text.push_str(tracks.as_str())?;
    Ok(text)
}
