// A list of images.
ghost use Rattle.std.specs.Prelude.{◌≡◌};

use image_mender::Image;
use std::marker::Model;

/// Images in their order. Contracts see the list.
#[derive(Debug, Drop)]
pub struct Pieces {
    list: Vec<Image>,
}

impl Model for Pieces {
    ghost use Rattle.std.specs.Prelude.{List};
    ghost use Rattle.image_mender.specs.declared.image.Part.{Part};

    ghost Value = { List (List Part) };

    ghost view = { λ pieces. pieces.list.items };
}

impl Pieces {
    /// The images of this list. It takes no memory.
    pub fn of(list: Vec<Image>) -> Self
        ensures { result ≡ list.items }
    {
        Pieces { list }
    }

    /// The images.
    pub fn as_slice(&self) -> &[Image]
        ensures { result.now ≡ self.now }
    {
        self.list.as_slice()
    }
}
