// What every kind of key shows.
ghost use Rattle.std.specs.Prelude.{◌≡◌, ℕ, ◌<◌, Bool, true};
ghost use Rattle.keys.specs.Key.{Lawful};

// A key has an identity, and answers two questions about it.
pub trait Key: Copy {
    // What two spellings of one key have in common.
    ghost Identity: { Type 0 };

    ghost identity: { Self → Identity };

    // The test of equal identities, which computes.
    ghost alike: { Self → Self → Bool };

    // The class of the key among sixteen.
    ghost shelved: { Self → ℕ };

    // Whether the two have one identity.
    fn same(&self, other: &Self) -> bool
        ensures { result ≡ alike self.now other.now };

    // Which of sixteen classes the key is in.
    fn shelf(&self) -> u8
        ensures { result ≡ shelved self.now };

    ghost sound: { (a b : Self) → alike a b ≡ true → identity a ≡ identity b };

    ghost complete: { (a b : Self) → identity a ≡ identity b → alike a b ≡ true };

    ghost below: { (a : Self) → shelved a < 16 };

    ghost together: { (a b : Self) → identity a ≡ identity b → shelved a ≡ shelved b };
}

// Every kind of key keeps the laws of keys.
pub fn keys_are_lawful<K: Key>()
    ensures { Lawful K.Key.identity K.Key.alike K.Key.shelved }
{}
