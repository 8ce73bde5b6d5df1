ghost use Rattle.std.specs.Prelude.{◌≡◌, true};
ghost use Rattle.cg_state.specs.Seen.{is_sized};

use cg_base::{Endian, List, Mode, NoMemory, Text};
use cg_model::{Alignment, Hardware, HwKind, Machine};
use cg_state::{Due, Outcome, Place, State, Write};
use std::alloc::Global;
use std::test::Fail;

/// Hardware of a kind with so many cells.
fn hardware(alloc: Global, kind: HwKind, count: u32) -> Hardware {
    Hardware {
        name: Text::new(alloc),
        kind,
        mode: Mode::Usi,
        count,
        keyword: None,
        get: None,
        set: None,
    }
}

/// A machine of 32 bits with two registers, memory between them: of two cells, and of one.
fn machine(alloc: Global) -> Result<Machine, NoMemory> {
    let mut all = List::new(alloc);
    all.push(hardware(alloc, HwKind::Register, 2))?;
    all.push(hardware(alloc, HwKind::Memory, 0))?;
    all.push(hardware(alloc, HwKind::Register, 1))?;
    Ok(Machine {
        name: Text::new(alloc),
        lsb0: false,
        alignment: Alignment::Aligned,
        word_bits: 32,
        insn_endian: Endian::Big,
        data_endian: Endian::Big,
        base_bits: 16,
        bundle: None,
        width: 1,
        fields: List::new(alloc),
        multis: List::new(alloc),
        hardware: all,
        operands: List::new(alloc),
        insns: List::new(alloc),
        macros: List::new(alloc),
        texts: List::new(alloc),
    })
}

/// The state in which it starts at address 16, with room for two writes that come later.
fn started(alloc: Global) -> Result<Option<State>, NoMemory> {
    let machine = machine(alloc)?;
    if machine.word_bits != 32 {
        return Ok(None);
    }
    Ok(Some(State::start(alloc, &machine, 16, 2)?))
}

/// A write of a cell.
fn cell(hardware: u16, index: u32, value: u64) -> Write
    ensures { is_sized result ≡ true }
{
    Write {
        place: Place::Cell { hardware, index },
        value,
    }
}

#[test]
fn a_machine_starts_with_zeros(rt: HostRuntime) -> Result<(), Fail> {
    let Some(state) = started(rt.alloc())? else {
        assert!(rt; false);
        return Ok(());
    };
    assert_eq!(rt; state.pc(), 16);
    let cells = [(0, 0), (0, 1), (0, 2), (1, 0), (2, 0), (2, 1), (3, 0)];
    let wanted = [Some(0), Some(0), None, None, Some(0), None, None];
    for k in 0..7 {
        assert_eq!(rt; state.cell(cells[k].0, cells[k].1), wanted[k]);
    }
    assert_eq!(rt; state.byte(0xf_ffff), Some(0));
    assert_eq!(rt; state.byte(0x10_0000), None);
    assert!(rt; state.due().is_empty() && state.ended().is_none());
    assert_eq!(rt; (state.steps(), state.cycles()), (0, 0));
    Ok(())
}

#[test]
fn a_state_holds_what_is_put(rt: HostRuntime) -> Result<(), Fail> {
    let Some(mut state) = started(rt.alloc())? else {
        assert!(rt; false);
        return Ok(());
    };
    assert!(rt;
        state.put(&cell(2, 0, 7)) && state.put(&cell(0, 1, 5)) && !state.put(&cell(0, 2, 9))
    );
    assert_eq!(rt; (state.cell(0, 0), state.cell(0, 1)), (Some(0), Some(5)));
    assert_eq!(rt; state.cell(2, 0), Some(7));
    let number = Write {
        place: Place::Memory {
            address: 0xf_fffe,
            width: 2,
        },
        value: 0x1234,
    };
    assert!(rt; state.put(&number));
    assert_eq!(rt;
        (state.byte(0xf_fffe), state.byte(0xf_ffff)),
        (Some(0x12), Some(0x34))
    );
    assert!(rt; !state.put_bytes(0xf_ffff, b"ab") && state.put_bytes(3, b"ab"));
    assert_eq!(rt; (state.byte(3), state.byte(4)), (Some(97), Some(98)));
    Ok(())
}

#[test]
fn later_writes_come_in_their_order(rt: HostRuntime) -> Result<(), Fail> {
    let Some(mut state) = started(rt.alloc())? else {
        assert!(rt; false);
        return Ok(());
    };
    let two = Due {
        left: 2,
        write: cell(0, 0, 1),
    };
    let one = Due {
        left: 1,
        write: cell(0, 0, 2),
    };
    assert!(rt; state.add_due(two) && state.add_due(one) && !state.add_due(one));
    assert!(rt; state.take_due().is_none());
    state.due_turn();
    assert_eq!(rt; state.take_due(), Some(cell(0, 0, 2)));
    assert!(rt; state.take_due().is_none());
    state.due_turn();
    assert_eq!(rt; state.take_due(), Some(cell(0, 0, 1)));
    state.count(3);
    state.finish(Outcome::Halted(4));
    assert_eq!(rt; (state.steps(), state.cycles()), (1, 3));
    assert!(rt; state.ended() == Some(Outcome::Halted(4)));
    state.restore(&[], 0, 0);
    assert!(rt; state.ended().is_none() && state.steps() == 0);
    Ok(())
}
