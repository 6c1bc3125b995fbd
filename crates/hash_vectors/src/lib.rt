// The hashes on a published vector, and their tables by the rules that define them: both by computation.
#![tactic(auto)]

ghost use Rattle.std.specs.Prelude.{◌≡◌};
ghost use Rattle.sha2_256.specs.Sha256.{sha256_of, k, initial};
ghost use Rattle.sha3.specs.Keccak.{offsets, rc};
ghost use Rattle.sha3.specs.Sha3.{sha3_256_of};
ghost use Rattle.hash_vectors.specs.Published.{abc, abc_sha256, abc_sha3_256};
ghost use Rattle.hash_vectors.specs.Tables.{cube_roots, square_roots, walked, constants};

use seals::Sealer;
use sha2_256::Sha256;
use sha3::Sha3_256;

// The seal of "abc". The definition gives the published digest, and the constants are those of the primes' roots.
pub fn sha256_abc() -> [u8; 32]
    ensures answer { result ≡ abc_sha256 }
    ensures definition { sha256_of abc ≡ abc_sha256 }
    ensures rounds { k ≡ cube_roots }
    ensures start { initial ≡ square_roots }
{
    let mut out = [0; 32];
    let _ = Sha256.seal(b"abc", &mut out);
    out
}

// The seal of "abc". The definition gives the published digest, and the tables are what their algorithms give.
pub fn sha3_256_abc() -> [u8; 32]
    ensures answer { result ≡ abc_sha3_256 }
    ensures definition { sha3_256_of abc ≡ abc_sha3_256 }
    ensures turns { offsets ≡ walked }
    ensures rounds { rc ≡ constants }
{
    let mut out = [0; 32];
    let _ = Sha3_256.seal(b"abc", &mut out);
    out
}
