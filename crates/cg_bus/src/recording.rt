ghost use Rattle.std.specs.Prelude.{◌≡◌, ◌≤◌, ◌<◌, ◌^◌, [], true, length, vec_capacity, IfOk};
ghost use Rattle.cg_base.specs.Accesses.{Accessed, Reads, Writes, read_access, write_access};
ghost use Rattle.cg_bus.specs.Recording.{recorded, recorder_state, will_fail, next_answer, next_read, next_write, access_of, Enters};

use crate::access::Access;
use crate::device::{Device, DeviceFailed};
use crate::recorder::Recorder;
use crate::width::lowest;
use cg_base::{List, NoMemory};
use std::alloc::Global;

impl Recorder {
    /// A recorder that wasn't asked yet. Calls count from 0, reads and writes together: those
    /// fail whose numbers stand in `failing` or are `room` or more. The memory for `room`
    /// accesses is taken here.
    pub fn new(
        alloc: Global,
        answers: List<u64>,
        failing: List<u64>,
        room: u32,
    ) -> Result<Recorder, NoMemory>
        ensures given { IfOk result (λ r.
            (r.answers ≡ answers) × (r.failing ≡ failing) × (r.room ≡ room)) }
        ensures start { IfOk result (λ r.
            (recorded r ≡ []) × (r.reads ≡ 0) × (r.whole ≡ true) × (r.faults ≡ 0)) }
    {
        let past = Vec::with_capacity(alloc, room as usize)?;
        Ok(Recorder {
            answers,
            failing,
            room,
            past,
            reads: 0,
            whole: true,
            faults: 0,
        })
    }

    /// The accesses so far, in order, as far as there was room.
    pub fn past(&self) -> &[Access]
        ensures { result.now ≡ self.now.past.items }
    {
        self.past.as_slice()
    }

    /// Whether the next call fails.
    fn will_fail(&self) -> bool
        ensures { result ≡ will_fail self.now }
    {
        self.room as usize <= self.past.len()
            || self.failing.as_slice().contains(&(self.past.len() as u64))
    }

    /// What the next read answers, where it doesn't fail.
    fn next_answer(&self, width: u8) -> u64
        requires from { 1 ≤ width }
        requires to { width ≤ 8 }
        ensures value { result ≡ next_answer self.now width }
        ensures fits { result < 256 ^ width }
    {
        match self.answers.get(self.reads) {
            Some(answer) => lowest(*answer, width),
            None => lowest(0, width),
        }
    }

    /// Keeps an access, where there is room for it.
    fn enter(&mut self, access: Access)
        requires fits { access.value < 256 ^ access.width }
        ensures entered { Enters (access_of access) self.old self.new }
        ensures asked { Accessed (access_of access) (recorder_state self.old) (recorder_state self.new) }
    {
        if self.past.len() < self.room as usize {
            self.past.push(access).unwrap();
            if !access.write {
                self.reads += 1;
            }
        } else {
            self.whole = false;
        }
        if access.failed {
            self.faults = self.faults.saturating_add(1);
        }
    }
}

impl Device for Recorder {
    ghost state = { recorder_state };

    #[tactic(auto, using(crate::proofs::Powers::byte_power_pos))]
    fn read(&mut self, offset: u64, width: u8) -> Result<u64, DeviceFailed>
        requires from { 1 ≤ width }
        requires to { width ≤ 8 }
        ensures answer { result ≡ next_read self.old width }
        ensures entered { Enters (read_access offset width result) self.old self.new }
        ensures asked { Reads (recorder_state self.old) (recorder_state self.new)
            offset width result }
    {
        let failed = self.will_fail();
        let value = if failed { 0 } else { self.next_answer(width) };
        self.enter(Access {
            write: false,
            offset,
            width,
            value,
            failed,
        });
        if failed { Err(DeviceFailed) } else { Ok(value) }
    }

    fn write(&mut self, offset: u64, width: u8, value: u64) -> Result<(), DeviceFailed>
        requires from { 1 ≤ width }
        requires to { width ≤ 8 }
        requires fits { value < 256 ^ width }
        ensures answer { result ≡ next_write self.old }
        ensures entered { Enters (write_access offset width value result) self.old self.new }
        ensures asked { Writes (recorder_state self.old) (recorder_state self.new)
            offset width value result }
    {
        let failed = self.will_fail();
        self.enter(Access {
            write: true,
            offset,
            width,
            value,
            failed,
        });
        if failed { Err(DeviceFailed) } else { Ok(()) }
    }

    fn shown(&self) -> &[u8] {
        &[]
    }

    fn failed(&self) -> u64 {
        self.faults
    }
}
