// The ids that are digests of texts.
ghost use Rattle.std.specs.Prelude.{◌≡◌, IfOk};
ghost use Rattle.base64.specs.Engines.{standard};
ghost use Rattle.base64.specs.GeneralPurpose.{encode_of};
ghost use Rattle.sha1.specs.Sha1.{sha1};
ghost use Rattle.disc_toc.specs.Toc.{toc_of};
ghost use Rattle.disc_ids.specs.Digest.{id_of, spelled};
ghost use Rattle.disc_ids.specs.Texts.{musicbrainz_text, store_key_text};

use crate::texts::{text_for_key, text_for_musicbrainz};
use base64::engine::general_purpose::STANDARD;
use disc_toc::Layout;
use rip_basics::Oom;
use sha1::Sha1;
use std::alloc::Global;

/// An id of 28 ASCII characters: a SHA-1 digest in base64, with `.` for `+`, `_` for `/` and `-` for `=`.
#[derive(Clone, Copy, Debug, PartialEq, Eq)]
pub struct Id28(pub [u8; 28]);

// A character of base64, as ids write it.
fn spell(character: u8) -> u8
    ensures { result ≡ spelled character }
{
    match character {
        b'+' => b'.',
        b'/' => b'_',
        b'=' => b'-',
        _ => character,
    }
}

// A digest in base64.
fn in_base64(bytes: &[u8; 20]) -> [u8; 28]
    ensures { result ≡ encode_of standard bytes.now }
{
    let mut text = [0; 28];
    let written = STANDARD.encode_slice(bytes, &mut text).is_ok();
    prove!(written);
    text
}

// The id that is the digest of this text.
fn digest_of(text: &[u8]) -> Id28
    ensures { result.0 ≡ id_of text.now }
{
    let mut id = in_base64(&Sha1::digest(text));
    for character in id.iter_mut() {
        *character = spell(*character);
    }
    Id28(id)
}

/// The id of a disc at MusicBrainz, or Oom for want of memory: a digest of where the tracks begin and the last one ends.
pub fn musicbrainz_id(alloc: Global, layout: &Layout) -> Result<Id28, Oom>
    ensures { IfOk result (λ id. id.0 ≡ id_of (musicbrainz_text (toc_of layout.now))) }
{
    let text = text_for_musicbrainz(alloc, layout)?;
    Ok(digest_of(text.as_slice()))
}

/// The key of a disc in a store, or Oom for want of memory. It is a digest of how long the tracks are, whatever comes
/// before the first.
pub fn store_key(alloc: Global, layout: &Layout) -> Result<Id28, Oom>
    ensures { IfOk result (λ key. key.0 ≡ id_of (store_key_text (toc_of layout.now))) }
{
    let text = text_for_key(alloc, layout)?;
    Ok(digest_of(text.as_slice()))
}
