ghost use Rattle.std.specs.Prelude.{◌≡◌, map, ◌≤◌, ◌<◌, ◌^◌, ◌-◌, true, false, [], ◌∷◌, ◌++◌, length, slice_get, remove, is_some, OnSome, IfSome, IfNone, OnOk, OnErr, IfOk, IfErr};
ghost use Rattle.cg_base.specs.Accesses.{read_access, write_access, Reads, Writes};
ghost use Rattle.std.specs.List.{list_all};
ghost use Rattle.cg_bus.specs.Slots.{covers, is_free, fits, range_of, AreApart, HasOneHolder, first_of, first_modulo, reached, are_apart, RefusesSlot, Asks};

use crate::fault::{AttachFault, BusFault};
use crate::range::Range;
use crate::slot::Slot;
use cg_base::NoMemory;
use std::alloc::Global;

/// Slots in order, no two with an address in common, and none that meets RAM. docs/RUNNING.md,
/// "Devices".
#[derive(Drop)]
pub struct Bus {
    /// 2 to the power of the bits of a word.
    top: u128,
    /// RAM has the addresses below this one.
    ram: u64,
    slots: Vec<Slot>,
    ghost small: { top ≤ 2 ^ 64 },
    ghost some: { 1 ≤ top },
    ghost apart: { AreApart range_of top slots.items },
    ghost few: { length slots.items < 2 ^ 32 },
}

impl Bus {
    /// A bus with no slots, for words of so many bits. RAM has the addresses below `ram`.
    pub fn new(alloc: Global, word_bits: u8, ram: u64) -> Result<Bus, NoMemory>
        requires from { 1 ≤ word_bits }
        requires to { word_bits ≤ 64 }
        ensures { IfOk result (λ bus.
            (bus.slots.items ≡ []) × (bus.top ≡ 2 ^ word_bits) × (bus.ram ≡ ram)) }
    {
        Ok(Bus {
            top: 1 << word_bits as u32,
            ram,
            slots: Vec::new(alloc),
        })
    }

    /// How many slots are attached.
    pub fn len(&self) -> u32
        ensures { result ≡ length self.now.slots.items }
    {
        self.slots.len() as u32
    }

    /// Puts a slot behind the others, or hands it back. Overlap comes exactly where the slot has
    /// no addresses, reaches out of the address space, or meets RAM or another slot, and tells
    /// where the slot would have stood.
    pub fn attach(&mut self, slot: Slot) -> Result<(), (Slot, AttachFault)>
        requires few { length self.old.slots.items < 2 ^ 32 - 1 }
        ensures ok { OnOk result (self.new.slots.items ≡ self.old.slots.items ++ slot ∷ []) }
        ensures free { OnOk result (is_free self.old.top self.old.ram (range_of slot)
            (map range_of self.old.slots.items) ≡ true) }
        ensures back { IfErr result (λ e. e.0 ≡ slot) }
        ensures cause { IfErr result (λ e. RefusesSlot self.old.top self.old.ram (range_of slot)
            (map range_of self.old.slots.items) e.1) }
        ensures same { OnErr result (self.new.slots.items ≡ self.old.slots.items) }
        ensures top { self.new.top ≡ self.old.top }
        ensures ram { self.new.ram ≡ self.old.ram }
    {
        if !self.is_free(slot.range()) {
            let first = self.first_modulo(slot.range());
            let len = slot.len;
            return Err((slot, AttachFault::Overlap { first, len }));
        }
        match self.slots.push(slot) {
            Ok(()) => Ok(()),
            Err(failed) => Err((failed.value, AttachFault::NoMemory)),
        }
    }

    /// Takes the k-th slot out, counted from 0. None exactly where there is none. Those behind it
    /// move down by one.
    pub fn detach(&mut self, k: u32) -> Option<Slot>
        ensures taken { result ≡ slice_get self.old.slots.items k }
        ensures rest { OnSome result (self.new.slots.items ≡ remove self.old.slots.items k) }
        ensures none { IfNone result (self.new.slots.items ≡ self.old.slots.items) }
        ensures top { self.new.top ≡ self.old.top }
        ensures ram { self.new.ram ≡ self.old.ram }
    {
        let k = k as usize;
        if k < self.slots.len() {
            Some(self.slots.remove(k))
        } else {
            None
        }
    }

    /// Whether an access of `width` bytes lies whole in one slot. No device is asked.
    pub fn holds(&self, address: u64, width: u8) -> bool
        requires from { 1 ≤ width }
        requires to { width ≤ 8 }
        ensures held { result ≡ is_some (reached range_of self.now.top address width self.now.slots.items) }
        ensures one { HasOneHolder range_of self.now.top address width self.now.slots.items }
    {
        self.slot_of(address, width).is_some()
    }

    /// Reads a number of `width` bytes. One device is asked, once: that of the slot in which the
    /// access lies whole. Nowhere comes exactly where there is none, DeviceFailed where the device
    /// fails.
    pub fn read(&mut self, address: u64, width: u8) -> Result<u64, BusFault>
        requires from { 1 ≤ width }
        requires to { width ≤ 8 }
        ensures asks { Asks range_of (λ s. state s.device) self.old.top address width
            (λ offset. read_access offset width result)
            self.old.slots.items self.new.slots.items result }
        ensures one { HasOneHolder range_of self.old.top address width self.old.slots.items }
        ensures top { self.new.top ≡ self.old.top }
        ensures ram { self.new.ram ≡ self.old.ram }
    {
        let top = self.top;
        match self.slot_of(address, width) {
            None => Err(BusFault::Nowhere),
            Some(k) => read_slot(&mut self.slots[k], top, address, width),
        }
    }

    /// Writes a number of `width` bytes. One device is asked, once, and Nowhere and DeviceFailed
    /// come as for `read`.
    pub fn write(&mut self, address: u64, width: u8, value: u64) -> Result<(), BusFault>
        requires from { 1 ≤ width }
        requires to { width ≤ 8 }
        requires fits { value < 256 ^ width }
        ensures asks { Asks range_of (λ s. state s.device) self.old.top address width
            (λ offset. write_access offset width value result)
            self.old.slots.items self.new.slots.items result }
        ensures one { HasOneHolder range_of self.old.top address width self.old.slots.items }
        ensures top { self.new.top ≡ self.old.top }
        ensures ram { self.new.ram ≡ self.old.ram }
    {
        let top = self.top;
        match self.slot_of(address, width) {
            None => Err(BusFault::Nowhere),
            Some(k) => write_slot(&mut self.slots[k], top, address, width, value),
        }
    }

    /// Whether a slot of this range may be attached.
    fn is_free(&self, range: Range) -> bool
        ensures { result ≡ is_free self.now.top self.now.ram range
            (map range_of self.now.slots.items) }
    {
        self.fits(range) && self.meets_none(range)
    }

    /// Whether the range has addresses, all of them below the top and behind RAM.
    fn fits(&self, range: Range) -> bool
        ensures { result ≡ fits self.now.top self.now.ram range }
    {
        0 < range.len
            && range.len <= range.below_top
            && range.below_top as u128 <= self.top
            && self.ram as u128 <= first_of(self.top, range)
    }

    /// Whether no slot has an address of the range.
    fn meets_none(&self, range: Range) -> bool
        ensures { result ≡ list_all (are_apart self.now.top range) (map range_of self.now.slots.items) }
    {
        for slot in &self.slots {
            if !are_apart(self.top, range, slot.range()) {
                return false;
            }
        }
        true
    }

    /// The first address of the range, modulo the top.
    fn first_modulo(&self, range: Range) -> u64
        ensures { result ≡ first_modulo self.now.top range }
    {
        ((self.top - range.below_top as u128 % self.top) % self.top) as u64
    }

    /// The place of the slot in which the access lies whole.
    fn slot_of(&self, address: u64, width: u8) -> Option<usize>
        requires { 1 ≤ width }
        ensures place { result ≡ reached range_of self.now.top address width self.now.slots.items }
        ensures within { IfSome result (λ k. k < length self.now.slots.items) }
        ensures one { HasOneHolder range_of self.now.top address width self.now.slots.items }
    {
        let top = self.top;
        self.slots.iter().position(
            |slot: &Slot| -> bool
                requires { top ≤ 2 ^ 64 }
                ensures { result ≡ covers top address width (range_of slot.now) }
            { covers(top, address, width, slot.range()) },
        )
    }
}

/// The first address of a range.
fn first_of(top: u128, range: Range) -> u128
    ensures { result ≡ first_of top range }
{
    top.saturating_sub(range.below_top as u128)
}

/// Whether two ranges have no address in common.
fn are_apart(top: u128, a: Range, b: Range) -> bool
    requires { top ≤ 2 ^ 64 }
    ensures { result ≡ are_apart top a b }
{
    let (first_a, first_b) = (first_of(top, a), first_of(top, b));
    first_a + a.len as u128 <= first_b || first_b + b.len as u128 <= first_a
}

/// Whether an access of `width` bytes lies whole in the range.
fn covers(top: u128, address: u64, width: u8, range: Range) -> bool
    requires { top ≤ 2 ^ 64 }
    ensures { result ≡ covers top address width range }
{
    let first = first_of(top, range);
    first <= address as u128 && address as u128 + width as u128 <= first + range.len as u128
}

/// How far an address is behind the first of a range that holds it.
fn offset_of(top: u128, address: u64, width: u8, range: Range) -> u64
    requires small { top ≤ 2 ^ 64 }
    requires inside { covers top address width range ≡ true }
    ensures { result ≡ address - first_of top range }
{
    (address as u128 - first_of(top, range)) as u64
}

/// Reads the device of a slot in which the access lies whole.
fn read_slot(slot: &mut Slot, top: u128, address: u64, width: u8) -> Result<u64, BusFault>
    requires small { top ≤ 2 ^ 64 }
    requires from { 1 ≤ width }
    requires to { width ≤ 8 }
    requires inside { covers top address width (range_of slot.old) ≡ true }
    ensures stays { range_of slot.new ≡ range_of slot.old }
    ensures asked { Reads (state slot.old.device) (state slot.new.device)
        (address - first_of top (range_of slot.old)) width result }
    ensures fault { IfErr result (λ fault. fault ≡ BusFault.DeviceFailed) }
{
    let offset = offset_of(top, address, width, slot.range());
    match slot.device.read(offset, width) {
        Ok(value) => Ok(value),
        Err(_) => Err(BusFault::DeviceFailed),
    }
}

/// Writes to the device of a slot in which the access lies whole.
fn write_slot(
    slot: &mut Slot,
    top: u128,
    address: u64,
    width: u8,
    value: u64,
) -> Result<(), BusFault>
    requires small { top ≤ 2 ^ 64 }
    requires from { 1 ≤ width }
    requires to { width ≤ 8 }
    requires fits { value < 256 ^ width }
    requires inside { covers top address width (range_of slot.old) ≡ true }
    ensures stays { range_of slot.new ≡ range_of slot.old }
    ensures asked { Writes (state slot.old.device) (state slot.new.device)
        (address - first_of top (range_of slot.old)) width value result }
    ensures fault { IfErr result (λ fault. fault ≡ BusFault.DeviceFailed) }
{
    let offset = offset_of(top, address, width, slot.range());
    match slot.device.write(offset, width, value) {
        Ok(()) => Ok(()),
        Err(_) => Err(BusFault::DeviceFailed),
    }
}
