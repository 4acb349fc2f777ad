//! Enums, by the names of their variants.
ghost use Rattle.std.specs.Prelude.{◌≡◌, ℕ, List};

/// An enum whose variants have names.
pub trait Named: Copy + Drop {
    /// The name of a variant.
    ghost name: { Self → List ℕ };

    /// The name of the variant. It does not allocate.
    fn name(self) -> &'static str
        ensures { result.now ≡ name self };
}
