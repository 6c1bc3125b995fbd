// The sealers for a caller in C: a slice is a pointer and then a length.
#![tactic(auto)]

ghost use Rattle.std.specs.Prelude.{◌≡◌, length, is_ok};
ghost use Rattle.seals.specs.Outcome.{seal_answer, seal_left};
ghost use Rattle.sha2_256.specs.Sha256.{sha256_sealing};
ghost use Rattle.sha3.specs.Sha3.{sha3_256_sealing};

use seals::Sealer;
use sha2_256::Sha256;
use sha3::Sha3_256;

// Whether `message` was sealed into `out`, which is as it was if not.
#[unsafe(no_mangle)]
pub extern "C" fn seal_sha256(message: &[u8], out: &mut [u8]) -> bool
    ensures answer { result ≡ is_ok (seal_answer sha256_sealing (length message.now) (length out.old)) }
    ensures left { out.new ≡ seal_left sha256_sealing message.now out.old }
{
    Sha256.seal(message, out).is_ok()
}

// Whether `message` was sealed into `out`, which is as it was if not.
#[unsafe(no_mangle)]
pub extern "C" fn seal_sha3_256(message: &[u8], out: &mut [u8]) -> bool
    ensures answer { result ≡ is_ok (seal_answer sha3_256_sealing (length message.now) (length out.old)) }
    ensures left { out.new ≡ seal_left sha3_256_sealing message.now out.old }
{
    Sha3_256.seal(message, out).is_ok()
}
