use cg_base::{NoMemory, Text, decimal, hex};
use cg_bus::{AttachFault, BusFault, Slot};
use std::alloc::Global;

/// Puts a line at the end of a text.
pub(crate) fn put_line(printed: &mut Text, line: &[u8]) -> Result<(), NoMemory> {
    printed.append(line)?;
    printed.append(b"\n")
}

/// Puts how many hold a counter besides the one who made it.
pub(crate) fn put_count(alloc: Global, printed: &mut Text, holders: usize) -> Result<(), NoMemory> {
    put_line(printed, decimal(alloc, holders as i128 - 1)?.as_slice())
}

/// Puts what an access answered.
pub(crate) fn put_access(
    alloc: Global,
    printed: &mut Text,
    answer: Result<u64, BusFault>,
) -> Result<(), NoMemory> {
    match answer {
        Ok(value) => put_line(printed, hex(alloc, value)?.as_slice()),
        Err(BusFault::Nowhere) => put_line(printed, b"nowhere"),
        Err(BusFault::DeviceFailed) => put_line(printed, b"failed"),
    }
}

/// Puts whether a slot was attached.
pub(crate) fn put_attached(
    alloc: Global,
    printed: &mut Text,
    answer: Result<(), (Slot, AttachFault)>,
) -> Result<(), NoMemory> {
    match answer {
        Ok(()) => put_line(printed, b"attached"),
        Err((_, AttachFault::Overlap { first, len })) => {
            printed.append(b"overlap ")?;
            printed.append(hex(alloc, first)?.as_slice())?;
            printed.append(b" ")?;
            put_line(printed, hex(alloc, len)?.as_slice())
        }
        Err((_, AttachFault::NoMemory)) => Err(NoMemory),
    }
}

/// Puts a slot that was taken out: its place, the count of faults and the bytes of its device.
pub(crate) fn put_detached(
    alloc: Global,
    printed: &mut Text,
    taken: Option<Slot>,
) -> Result<(), NoMemory> {
    let Some(slot) = taken else {
        return put_line(printed, b"none");
    };
    for number in [slot.below_top, slot.len, slot.device.failed()] {
        printed.append(decimal(alloc, i128::from(number))?.as_slice())?;
        printed.append(b" ")?;
    }
    put_line(printed, slot.device.shown())
}
