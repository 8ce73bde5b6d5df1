//! Symbols that name anyof operands.

ghost use Rattle.std.specs.Prelude.{◌≡◌};
ghost use Rattle.cg_desc_names.specs.Table.{known};
ghost use Rattle.cg_desc_fault_rtl.specs.E315.{is_anyof};

use cg_base::Text;
use cg_desc_elements::{Kind, Namespace};
use cg_desc_names::Names;

/// Whether the name is that of an anyof operand.
pub fn is_anyof(names: &Names, name: &Text) -> bool
    ensures { result ≡ is_anyof (known names.now) name.now }
{
    match names.first(Namespace::Operands, name) {
        Some(standing) => matches!(standing.kind, Kind::Anyof),
        None => false,
    }
}
