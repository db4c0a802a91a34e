// Records that have a key.
ghost use Rattle.std.specs.Prelude.{◌≡◌, ℕ, Bool};

pub mod rising;

pub trait Keyed {
    ghost key_of: { Self → ℕ };

    ghost soundness: { Self → Bool };

    // What the list is ordered by.
    fn key(&self) -> u32
        ensures { result ≡ key_of self.now };

    // Whether the record may stand in a list at all.
    fn is_sound(&self) -> bool
        ensures { result ≡ soundness self.now };
}
