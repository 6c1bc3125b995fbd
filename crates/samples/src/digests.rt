// Digests of other origin, in hexadecimal.
ghost use Rattle.std.specs.Prelude.{◌≡◌, IfOk, vec_len};
ghost use Rattle.hex.specs.Hex.{encode_lower};

use faults::Fault;
use seals::Sealer;
use std::alloc::{AllocError, Global};

// The four messages of the standards' examples that are not over 65,535 bytes: message, SHA-256, SHA3-256.
pub const PUBLISHED: [(&[u8], &[u8; 64], &[u8; 64]); 4] = [
    (
        b"",
        b"e3b0c44298fc1c149afbf4c8996fb92427ae41e4649b934ca495991b7852b855",
        b"a7ffc6f8bf1ed76651c14756a061d662f580ff4de43b49fa82d80a4b80f8434a",
    ),
    (
        b"abc",
        b"ba7816bf8f01cfea414140de5dae2223b00361a396177a9cb410ff61f20015ad",
        b"3a985da74fe225b2045c172d6bd390bd855f086e3e9d525b46bfe24511431532",
    ),
    (
        b"abcdbcdecdefdefgefghfghighijhijkijkljklmklmnlmnomnopnopq",
        b"248d6a61d20638b8e5c026930c3e6039a33ce45964ff2167f6ecedd419db06c1",
        b"41c0dba2a9d6240849100376a8235e2c82e1b9998a999e21db32dd97496d3376",
    ),
    (
        b"abcdefghbcdefghicdefghijdefghijkefghijklfghijklmghijklmnhijklmnoijklmnopjklmnopqklmnopqrlmnopqrsmnopqrstnopqrstu",
        b"cf5b16a778af8380036ce59e7b0492370b249b11e8f07a51afac45037afee9d1",
        b"916f6061fe879741ca6469b43971dfdb28b1a32dc36cb3254e812be27aad1d18",
    ),
];

// The first n bytes of i mod 251, at the edges of blocks and the longest: n, SHA-256, SHA3-256, as OpenSSL gives them.
pub const PATTERN: [(u32, &[u8; 64], &[u8; 64]); 9] = [
    (
        55,
        b"463eb28e72f82e0a96c0a4cc53690c571281131f672aa229e0d45ae59b598b59",
        b"a91a138e3374d2d8fa4791b83a93a311a06a2926ef70153428cf6e1b239c10d4",
    ),
    (
        56,
        b"da2ae4d6b36748f2a318f23e7ab1dfdf45acdc9d049bd80e59de82a60895f562",
        b"d192f5964dc70118fcac64bf0eb838009b816d344f67b04e8e78d5bde783e54a",
    ),
    (
        63,
        b"29af2686fd53374a36b0846694cc342177e428d1647515f078784d69cdb9e488",
        b"ba7af58d214bb604bcaad40ad55cca7d9815e7535f1c9837be8fb8fee2519560",
    ),
    (
        64,
        b"fdeab9acf3710362bd2658cdc9a29e8f9c757fcf9811603a8c447cd1d9151108",
        b"c8ad478f4e1dd9d47dfc3b985708d92db1f8db48fe9cddd459e63c321f490402",
    ),
    (
        65,
        b"4bfd2c8b6f1eec7a2afeb48b934ee4b2694182027e6d0fc075074f2fabb31781",
        b"9a11f135d2231be8ee824d1e9d3204018870defc2f469f34ef5969b4815cec3c",
    ),
    (
        135,
        b"6a053848cfe83c0fc8c8a81dd84f6b946c63193cd25cdd5dad45f08be8019e89",
        b"fded8fd9d6551c601eeb3b7c6bc5e5cfd8aad1d015b7e9aaa9c9b9475231d5e2",
    ),
    (
        136,
        b"ffc555203945df4e81d75f316e4c25fdc0bc4e96412f4f469349eb716f001a7d",
        b"cf3ccff92480a29160c2d38317c430e14749bfee1788106957dfe73f8c4930e5",
    ),
    (
        137,
        b"81d45be06329d63a2d8a8599d445676933bea1678fc586795b4ecbb838d4d158",
        b"ce9d7dc90913ee5d92745019479a5352c6d6279bef18ed07dc0a83ee8084daca",
    ),
    (
        65_535,
        b"dda402a2c028f0cbbdbc5c6ebae965eed9c75f71236e7022b0386d3455d5ae2f",
        b"0e725815666dd89bf04d0002700b8155c2a2943d43fd5977246250ecf7f0a31d",
    ),
];

// The first n bytes of i mod 251.
pub fn pattern(heap: Global, n: u32) -> Result<Vec<u8>, AllocError>
    ensures { IfOk result (λ bytes. vec_len bytes ≡ n) }
{
    (0..n).map(|i| (i % 251) as u8).collect(heap)
}

// The seal of a message, which has 32 bytes, in hexadecimal.
pub fn sealed<S: Sealer>(sealer: &S, message: &[u8]) -> Result<[u8; 64], Fault>
    ensures { IfOk result (λ digits. digits ≡ encode_lower (S.sealing.seal message.now)) }
{
    let mut seal = [0; 32];
    sealer.seal(message, &mut seal)?;
    let mut digits = [0; 64];
    let _ = hex::encode_to_slice(seal, &mut digits);
    Ok(digits)
}
