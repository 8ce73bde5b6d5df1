ghost use Rattle.std.specs.Prelude.{◌≡◌, ◌<◌, ◌-◌, ◌++◌, map, length, take, drop, IfSome, true, position, ◌≤◌, vec_capacity};
ghost use Rattle.cg_state.specs.Seen.{turned, has_landed};

use cg_model_effects::Due;

/// Lowers every `left` above 0 by one.
pub(crate) fn turn(due: &mut [Due])
    ensures { due.new ≡ map turned due.old }
{
    let mut k = 0;
    while k < due.len() {
        lower(&mut due[k]);
        k += 1;
    }
}

/// Lowers `left` by one where it is above 0.
fn lower(due: &mut Due)
    ensures { due.new ≡ turned due.old }
{
    due.left = due.left.saturating_sub(1);
}

/// The place of the first write that has landed.
pub(crate) fn first_landed(due: &[Due]) -> Option<usize>
    ensures place { result ≡ position has_landed due.now }
    ensures within { IfSome result (λ k. k < length due.now) }
{
    due.iter().position(
        |d: &Due| -> bool
            ensures { result ≡ has_landed d.now }
        { d.left == 0 },
    )
}

/// Makes the list these writes. It takes no memory.
pub(crate) fn put_back(list: &mut Vec<Due>, due: &[Due])
    requires { length due.now ≤ vec_capacity list.old }
    ensures list { list.new.items ≡ due.now }
    ensures room { vec_capacity list.old ≤ vec_capacity list.new }
{
    list.clear();
    list.extend_from_slice(due).unwrap();
}
