// How tables of names hash.
use std::hash::{BuildHasher, DefaultHasher, Hasher};

/// A key for hashing names, which all the names that it was made of decide together. Who chooses names that
/// fall together under some key has chosen another key by them.
#[derive(Clone, Copy)]
pub struct Salted {
    hasher: DefaultHasher,
}

impl Salted {
    /// The key of no names, for tables whose names nobody chooses, and to begin with.
    pub fn new() -> Salted {
        Salted {
            hasher: DefaultHasher::new(),
        }
    }

    /// The key of names, for a table of these alone.
    pub fn of(names: &[&[u8]]) -> Salted {
        let mut salt = Salted::new();
        for name in names {
            salt.absorb(name);
        }
        salt.sealed()
    }

    /// Takes a name in, with a zero behind it, which no name of C holds.
    pub fn absorb(&mut self, name: &[u8]) {
        self.hasher.write(name);
        self.hasher.write_u8(0);
    }

    /// The key, behind the last name: what the names make, together with its own hash, so that the last
    /// name alone cannot lead to a key that was wished for.
    pub fn sealed(self) -> Salted {
        let mut hasher = self.hasher;
        let seal = hasher.finish();
        hasher.write_u64(seal);
        Salted { hasher }
    }
}

impl BuildHasher for Salted {
    type Hasher = DefaultHasher;

    ghost build_hasher = { λ s. s.hasher };

    fn build_hasher(&self) -> DefaultHasher {
        self.hasher
    }
}
