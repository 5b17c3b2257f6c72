// The sums of the samples of a rip up to a place.
ghost use Rattle.std.specs.Prelude.{◌≡◌, ℕ, ◌+◌, ◌*◌, ◌/◌, ◌%◌, ◌^◌, ◌<◌, ◌≤◌, ◌++◌, ◌∷◌, [], List, length};
ghost use Rattle.accurip_match.specs.Slider.{PrefixStandsFor};

/// The sum of some samples, and that of their products with their numbers, each modulo 2^32.
#[derive(Clone, Copy, Debug, PartialEq, Eq)]
pub struct Prefix {
    pub values: u32,
    pub products: u32,
}

impl Prefix {
    // These sums and the next sample, after so many others.
    fn plus(self, before: u32, left: u16, right: u16) -> Prefix
        requires { before + 1 < 2 ^ 32 }
        ensures { (y : List ℕ) → PrefixStandsFor self before y → PrefixStandsFor result (before + 1) (y ++ left ∷ right ∷ []) }
    {
        let value = u32::from(left) + 65536 * u32::from(right);
        Prefix {
            values: self.values.wrapping_add(value),
            products: self.products.wrapping_add((before + 1).wrapping_mul(value)),
        }
    }

    // These sums and the next samples, after so many others.
    pub(crate) fn with_words(self, before: u32, words: &[u16]) -> Prefix
        requires whole { length words.now % 2 ≡ 0 }
        requires room { 2 * before + length words.now < 2 ^ 32 }
        ensures { (y : List ℕ) → PrefixStandsFor self before y → PrefixStandsFor result (before + length words.now / 2) (y ++ words.now) }
    {
        let mut prefix = self;
        for i in 0..words.len() / 2 {
            prefix = prefix.plus(before + i as u32, words[2 * i], words[2 * i + 1]);
        }
        prefix
    }

    // The sum of the samples between two places, each times its number less the shift: those up to the one place are
    // summed in `self`, and those up to the other in `after`.
    pub(crate) fn sum_to(self, after: Prefix, shift: u32) -> u32
        ensures { (sum v w v' w' : ℕ) → self.values ≡ v % 2 ^ 32 → self.products ≡ w % 2 ^ 32 → after.values ≡ v' % 2 ^ 32 → after.products ≡ w' % 2 ^ 32 → sum + shift * v' + w ≡ w' + shift * v → result ≡ sum % 2 ^ 32 }
    {
        let values = after.values.wrapping_sub(self.values);
        let products = after.products.wrapping_sub(self.products);
        products.wrapping_sub(shift.wrapping_mul(values))
    }
}
