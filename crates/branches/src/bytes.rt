// Bytes compared and cleared.
ghost use Rattle.std.specs.Prelude.{◌≡◌, length};
ghost use Rattle.kinds.specs.Kind.{same_row};
ghost use Rattle.theory.specs.Tests.{differ};
ghost use Rattle.theory.specs.Keeper.{work_after};

// The first offset at which two slices of one length differ.
pub fn first_difference(left: &[u8], right: &[u8]) -> Option<usize>
    requires { length left.now ≡ length right.now }
    ensures { result ≡ differ left.now right.now }
{
    left.iter().zip(right).position(|(a, b)| a != b)
}

pub fn same_bytes(left: &[u8], right: &[u8]) -> bool
    requires { length left.now ≡ length right.now }
    ensures { result ≡ same_row left.now right.now }
{
    first_difference(left, right).is_none()
}

// Leaves nothing of what a work slice held.
pub fn clear(work: &mut [u8])
    ensures { work.new ≡ work_after work.old }
{
    work.fill(0);
}
