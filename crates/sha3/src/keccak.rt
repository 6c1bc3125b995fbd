// The permutation Keccak-f[1600].
ghost use Rattle.std.specs.Prelude.{◌≡◌, map};
ghost use Rattle.std.specs.List.{range_with_len};
ghost use Rattle.sha3.specs.Keccak.{column, effect_at, θ, ρ, π, χ, keccak};

use std::array;

// Where the lane at each place after ρ and π stood before, and by how much it is turned.
static MOVES: [(usize, u32); 25] = [
    (0, 0),
    (6, 44),
    (12, 43),
    (18, 21),
    (24, 14),
    (3, 28),
    (9, 20),
    (10, 3),
    (16, 45),
    (22, 61),
    (1, 1),
    (7, 6),
    (13, 25),
    (19, 8),
    (20, 18),
    (4, 27),
    (5, 36),
    (11, 10),
    (17, 15),
    (23, 56),
    (2, 62),
    (8, 55),
    (14, 39),
    (15, 41),
    (21, 2),
];

// The sheet of each lane: a table, so that the loop over it is unrolled.
const SHEET: [usize; 25] = [
    0, 1, 2, 3, 4, 0, 1, 2, 3, 4, 0, 1, 2, 3, 4, 0, 1, 2, 3, 4, 0, 1, 2, 3, 4,
];

const RC: [u64; 24] = [
    0x0000_0000_0000_0001,
    0x0000_0000_0000_8082,
    0x8000_0000_0000_808a,
    0x8000_0000_8000_8000,
    0x0000_0000_0000_808b,
    0x0000_0000_8000_0001,
    0x8000_0000_8000_8081,
    0x8000_0000_0000_8009,
    0x0000_0000_0000_008a,
    0x0000_0000_0000_0088,
    0x0000_0000_8000_8009,
    0x0000_0000_8000_000a,
    0x0000_0000_8000_808b,
    0x8000_0000_0000_008b,
    0x8000_0000_0000_8089,
    0x8000_0000_0000_8003,
    0x8000_0000_0000_8002,
    0x8000_0000_0000_0080,
    0x0000_0000_0000_800a,
    0x8000_0000_8000_000a,
    0x8000_0000_8000_8081,
    0x8000_0000_0000_8080,
    0x0000_0000_8000_0001,
    0x8000_0000_8000_8008,
];

fn columns(a: &[u64; 25]) -> [u64; 5]
    ensures { result ≡ map (column a.now) (range_with_len 0 5) }
{
    array::from_fn(|x| a[x] ^ a[x + 5] ^ a[x + 10] ^ a[x + 15] ^ a[x + 20])
}

fn effects(c: &[u64; 5]) -> [u64; 5]
    ensures { result ≡ map (effect_at c.now) (range_with_len 0 5) }
{
    array::from_fn(|x| c[(x + 4) % 5] ^ c[(x + 1) % 5].rotate_left(1))
}

fn theta(a: &[u64; 25]) -> [u64; 25]
    ensures { result ≡ θ a.now }
{
    let d = effects(&columns(a));
    array::from_fn(|i| a[i] ^ d[SHEET[i]])
}

fn rho_pi(a: &[u64; 25]) -> [u64; 25]
    ensures { result ≡ π (ρ a.now) }
{
    array::from_fn(|i| {
        let (source, turn) = MOVES[i];
        a[source].rotate_left(turn)
    })
}

fn chi(a: &[u64; 25]) -> [u64; 25]
    ensures { result ≡ χ a.now }
{
    [
        a[0] ^ (!a[1] & a[2]),
        a[1] ^ (!a[2] & a[3]),
        a[2] ^ (!a[3] & a[4]),
        a[3] ^ (!a[4] & a[0]),
        a[4] ^ (!a[0] & a[1]),
        a[5] ^ (!a[6] & a[7]),
        a[6] ^ (!a[7] & a[8]),
        a[7] ^ (!a[8] & a[9]),
        a[8] ^ (!a[9] & a[5]),
        a[9] ^ (!a[5] & a[6]),
        a[10] ^ (!a[11] & a[12]),
        a[11] ^ (!a[12] & a[13]),
        a[12] ^ (!a[13] & a[14]),
        a[13] ^ (!a[14] & a[10]),
        a[14] ^ (!a[10] & a[11]),
        a[15] ^ (!a[16] & a[17]),
        a[16] ^ (!a[17] & a[18]),
        a[17] ^ (!a[18] & a[19]),
        a[18] ^ (!a[19] & a[15]),
        a[19] ^ (!a[15] & a[16]),
        a[20] ^ (!a[21] & a[22]),
        a[21] ^ (!a[22] & a[23]),
        a[22] ^ (!a[23] & a[24]),
        a[23] ^ (!a[24] & a[20]),
        a[24] ^ (!a[20] & a[21]),
    ]
}

pub fn permute(a: &mut [u64; 25])
    ensures { a.new ≡ keccak 24 a.old }
{
    for constant in &RC {
        *a = chi(&rho_pi(&theta(a)));
        a[0] ^= *constant;
    }
}
