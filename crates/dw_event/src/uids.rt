ghost use Rattle.std.specs.Prelude.{◌≡◌, ℕ, List, replicate};
ghost use Rattle.sha2.specs.Sha256.{sha256};

use dw_key::Uid;
use sha2::{Digest, Sha256};

/// What gives each list of canonical bytes its uid.
pub trait UidMaker {
    ghost digest: { List ℕ → List ℕ };

    fn digest(&self, canonical: &[u8]) -> Uid
        ensures { result ≡ digest canonical.now };
}

/// Gives SHA-256 of FIPS 180-4.
#[derive(Clone, Copy, Debug)]
pub struct ShaUid;

impl UidMaker for ShaUid {
    ghost digest = { sha256 };

    fn digest(&self, canonical: &[u8]) -> Uid {
        Sha256::digest(canonical)
    }
}

/// Gives 32 bytes 0, so that all records of a day and a type have one place. For tests.
#[derive(Clone, Copy, Debug)]
pub struct ConstUid;

impl UidMaker for ConstUid {
    ghost digest = { λ _. replicate 32 0 };

    fn digest(&self, _canonical: &[u8]) -> Uid {
        [0; 32]
    }
}
