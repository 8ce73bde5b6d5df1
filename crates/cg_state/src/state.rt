ghost use Rattle.std.specs.Prelude.{◌≡◌, ◌<◌, ◌≤◌, ◌+◌, ◌^◌, map, length, slice_get, None, Some, IfOk, vec_capacity, true, false, nat_lt, if◌then◌else◌, remove, is_some};
ghost use Rattle.std.specs.Option.{unwrap_or};
ghost use Rattle.cg_model.specs.Formed.{is_cpu_word};
ghost use Rattle.cg_state.specs.Starting.{start};
ghost use Rattle.cg_state.specs.Seen.{Seen, stand, turned, cell_number, added, with_due, cell_of, with_ended, with_count, TakesDue, put, put_cell, put_number, is_sized, restored, with_bytes, are_inside};

use crate::due::{first_landed, put_back, turn};
use crate::register::Register;
use crate::starting::{ram_size, registers_of};
use cg_base::{Endian, NoMemory};
use cg_model::Machine;
use cg_model_effects::{Due, Outcome, Place, Write};
use std::alloc::Global;
use std::marker::Model;

/// What a machine holds while it runs (docs/RUNNING.md, "States"). All its memory is taken when it
/// is made.
#[derive(Drop)]
pub struct State {
    pc: u64,
    registers: Vec<Register>,
    cells: Vec<u64>,
    ram: Vec<u8>,
    word_bits: u8,
    endian: Endian,
    due: Vec<Due>,
    room: u32,
    ended: Option<Outcome>,
    steps: u64,
    cycles: u64,
}

impl Model for State {
    ghost use Rattle.std.specs.Prelude.{◌≡◌, ◌≤◌, vec_capacity, length, true};
    ghost use Rattle.cg_model_effects.specs.Effects.{ram_size};
    ghost use Rattle.cg_state.specs.Seen.{Seen, stand};

    ghost Value = { Seen };

    ghost view = { λ s. record {
      pc = s.pc;
      registers = s.registers.items;
      cells = s.cells.items;
      ram = s.ram.items;
      word_bits = s.word_bits;
      endian = s.endian;
      due = s.due.items;
      room = s.room;
      ended = s.ended;
      steps = s.steps;
      cycles = s.cycles;
    } };

    ghost invariant = { λ s.
        (s.room ≤ vec_capacity s.due) × (stand 0 s.registers.items (length s.cells.items) ≡ true)
        × (length s.ram.items ≡ ram_size s.word_bits) };
}

impl State {
    /// The state in which a machine starts: the pc at `base`, which is below 2^word, and all else 0.
    /// It has room for `room` writes that come later.
    #[tactic(auto, using(crate::proofs::Standing::all_stand))]
    pub fn start(alloc: Global, machine: &Machine, base: u64, room: u32) -> Result<State, NoMemory>
        requires { is_cpu_word machine.now.word_bits ≡ true }
        ensures { IfOk result (λ state. state ≡ start machine.now base room) }
    {
        let (registers, count) = registers_of(alloc, machine.hardware.as_slice())?;
        let cells = vec![in alloc; 0u64; count as usize]?;
        let ram = vec![in alloc; 0u8; ram_size(machine.word_bits)]?;
        let due = Vec::with_capacity(alloc, room as usize)?;
        Ok(State {
            pc: base,
            registers,
            cells,
            ram,
            word_bits: machine.word_bits,
            endian: machine.data_endian,
            due,
            room,
            ended: None,
            steps: 0,
            cycles: 0,
        })
    }

    /// The address of the next bundle.
    pub fn pc(&self) -> u64
        ensures { result ≡ self.now.pc }
    {
        self.pc
    }

    /// What a cell holds. `hardware` counts all hardware of the machine, the built-in ones too.
    /// None exactly where it is no register, or has no such cell.
    #[tactic(auto, using(crate::proofs::Within::within))]
    pub fn cell(&self, hardware: u16, index: u32) -> Option<u64>
        ensures value { result ≡ cell_of self.now hardware index }
        ensures there { is_some result ≡ is_some (cell_number self.now.registers hardware index) }
    {
        match self.cell_number(hardware, index) {
            None => None,
            Some(n) => self.cells.get(n as usize).copied(),
        }
    }

    /// A byte of RAM. None exactly outside RAM.
    pub fn byte(&self, address: u64) -> Option<u8>
        ensures { result ≡ slice_get self.now.ram address }
    {
        self.ram.get(address as usize).copied()
    }

    /// The writes that come later, in the order in which they were added.
    pub fn due(&self) -> &[Due]
        ensures { result.now ≡ self.now.due }
    {
        self.due.as_slice()
    }

    /// How the run ended. None until it halts or traps.
    pub fn ended(&self) -> Option<Outcome>
        ensures { result ≡ self.now.ended }
    {
        self.ended
    }

    /// How many steps were made. It stays at 2^64 - 1.
    pub fn steps(&self) -> u64
        ensures { result ≡ self.now.steps }
    {
        self.steps
    }

    /// How many cycles they took. It stays at 2^64 - 1.
    pub fn cycles(&self) -> u64
        ensures { result ≡ self.now.cycles }
    {
        self.cycles
    }

    /// The number of a register's cell among all cells. None exactly where there is no such cell.
    fn cell_number(&self, hardware: u16, index: u32) -> Option<u64>
        ensures { result ≡ cell_number self.now.registers hardware index }
    {
        match self.registers.get(hardware as usize) {
            None => None,
            Some(r) => {
                if index < r.count {
                    Some(r.first as u64 + index as u64)
                } else {
                    None
                }
            }
        }
    }

    /// Puts the value where the write says. False exactly where there is no such cell,
    /// or where memory's bytes don't lie whole in RAM, and then nothing changes.
    pub fn put(&mut self, write: &Write) -> bool
        requires { is_sized write.now ≡ true }
        ensures answer { result ≡ is_some (put write.now self.old) }
        ensures state { self.new ≡ unwrap_or (put write.now self.old) self.old }
    {
        match write.place {
            Place::Pc => {
                self.pc = write.value;
                true
            }
            Place::Cell { hardware, index } => {
                let number = self.cell_number(hardware, index);
                self.put_cell(number, write.value)
            }
            Place::Memory { address, width } => self.put_number(address, width, write.value),
        }
    }

    /// Puts the cell of this number.
    fn put_cell(&mut self, number: Option<u64>, value: u64) -> bool
        ensures answer { result ≡ is_some (put_cell number value self.old) }
        ensures state { self.new ≡ unwrap_or (put_cell number value self.old) self.old }
    {
        match number {
            None => false,
            Some(n) => {
                if (n as usize) < self.cells.len() {
                    self.cells[n as usize] = value;
                    true
                } else {
                    false
                }
            }
        }
    }

    /// Puts a number into RAM.
    fn put_number(&mut self, address: u64, width: u8, value: u64) -> bool
        requires some { 1 ≤ width }
        requires few { width ≤ 8 }
        requires fits { value < 256 ^ width }
        ensures answer { result ≡ is_some (put_number address width value self.old) }
        ensures state { self.new ≡ unwrap_or (put_number address width value self.old) self.old }
    {
        let size = self.ram.len() as u64;
        if width as u64 <= size && address <= size - width as u64 {
            cg_base::put_number(
                self.ram.as_mut_slice(),
                address as usize,
                width,
                self.endian,
                value,
            );
            true
        } else {
            false
        }
    }

    /// Adds a write that comes later behind the others. False exactly where the room is used, and
    /// then nothing changes.
    pub fn add_due(&mut self, due: Due) -> bool
        ensures answer { result ≡ nat_lt (length self.old.due) self.old.room }
        ensures state { self.new ≡ added due self.old }
    {
        if self.due.len() >= self.room as usize {
            return false;
        }
        self.due.push(due).unwrap();
        true
    }

    /// Brings each write that comes later one bundle nearer: `left` falls by one where it is above 0.
    pub fn due_turn(&mut self)
        ensures { self.new ≡ with_due (map turned self.old.due) self.old }
    {
        turn(self.due.as_mut_slice());
    }

    /// Takes out the first of the later writes whose `left` is 0. None exactly where there is none.
    pub fn take_due(&mut self) -> Option<Write>
        ensures { TakesDue self.old self.new result }
    {
        match first_landed(self.due.as_slice()) {
            None => None,
            Some(k) => Some(self.due.remove(k).write),
        }
    }

    /// Ends the run.
    pub fn finish(&mut self, outcome: Outcome)
        ensures { self.new ≡ with_ended outcome self.old }
    {
        self.ended = Some(outcome);
    }

    /// Counts a step and its cycles. Both counts stay at 2^64 - 1.
    pub fn count(&mut self, cycles: u32)
        ensures { self.new ≡ with_count cycles self.old }
    {
        self.steps = self.steps.saturating_add(1);
        self.cycles = self.cycles.saturating_add(cycles as u64);
    }

    /// Undoes what a step did but for the pc, the cells and RAM: the writes that come later and the
    /// counts become these, and the run hasn't ended.
    pub fn restore(&mut self, due: &[Due], steps: u64, cycles: u64)
        requires { length due.now ≤ self.old.room }
        ensures { self.new ≡ restored due.now steps cycles self.old }
    {
        put_back(&mut self.due, due);
        self.ended = None;
        self.steps = steps;
        self.cycles = cycles;
    }

    /// Puts bytes into RAM, from an address on. False exactly where they don't lie whole in it, and
    /// then nothing changes.
    pub fn put_bytes(&mut self, address: u64, bytes: &[u8]) -> bool
        ensures answer { result ≡ are_inside address bytes.now self.old }
        ensures state { self.new ≡ (if result then with_bytes address bytes.now self.old else self.old) }
    {
        let size = self.ram.len();
        if bytes.len() <= size && address <= (size - bytes.len()) as u64 {
            let start = address as usize;
            self.ram[start..start + bytes.len()].copy_from_slice(bytes);
            true
        } else {
            false
        }
    }
}
