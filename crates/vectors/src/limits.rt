// Locks of one bit and as many products as a view can hold, and one more.
use crate::tell;
use engine::{Bit, Fault, Reason, read_lock};
use samples::built::squares;

pub fn compare(rt: &HostRuntime) -> anyhow::Result<()> {
    let most = squares(rt.alloc(), 32_751, 0)?;
    tell(
        rt,
        "32751 products of bits are read, the view has 65535 bytes",
        read_lock::<Bit>(most.as_slice()).is_ok_and(|lock| {
            lock.products == 32_751 && lock.view_length::<Bit>() == 65_535
        }),
    )?;
    let more = squares(rt.alloc(), 32_752, 0)?;
    tell(
        rt,
        "32752 are refused by fault 3 at the last one's record",
        read_lock::<Bit>(more.as_slice()).err() == Some(Fault::at(Reason::OutsideLimits, 327_525)),
    )
}
