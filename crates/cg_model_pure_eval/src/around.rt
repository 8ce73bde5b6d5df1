ghost use Rattle.std.specs.Prelude.{◌≡◌, ◌<◌, ◌^◌, true};
ghost use Rattle.cg_base.specs.Modes.{bits_of};
ghost use Rattle.cg_model.specs.Checked.{field_mode, multi_mode};
ghost use Rattle.cg_model.specs.Values.{mode_or_void};
ghost use Rattle.cg_model.specs.declared.machine.Machine.{Machine as MachineValue};
ghost use Rattle.cg_model_pure_eval.specs.Seen.{Seen};

use cg_model::Machine;

/// What stands around a pure expression of a machine.
pub trait Around {
    ghost seen: { Self → MachineValue → Seen };

    ghost ready: { Self → MachineValue → Type 0 };

    /// The rule's own value.
    fn value(&self, machine: &Machine) -> u64
        ensures { result ≡ (seen self.now machine.now).around.value };

    /// The pc.
    fn pc(&self, machine: &Machine) -> u64
        ensures { result ≡ (seen self.now machine.now).around.pc };

    /// The value of the field of a number, below 2^bits of the field's mode.
    fn field(&self, machine: &Machine, number: i64) -> u64
        requires ready { ready self.now machine.now }
        requires had { (seen self.now machine.now).has_field number ≡ true }
        ensures value { result ≡ (seen self.now machine.now).around.field number }
        ensures fits { result < 2 ^ bits_of (mode_or_void (field_mode machine.now number)) };

    /// The value of the multi field of a number, below 2^bits of the multi field's mode.
    fn multi(&self, machine: &Machine, number: i64) -> u64
        requires ready { ready self.now machine.now }
        requires had { (seen self.now machine.now).has_multi number ≡ true }
        ensures value { result ≡ (seen self.now machine.now).around.multi number }
        ensures fits { result < 2 ^ bits_of (mode_or_void (multi_mode machine.now number)) };
}
