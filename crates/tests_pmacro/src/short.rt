//! Calls of the short forms, each with distinct arguments, and the form that it stands for.

use crate::cases::Case;

/// A call of each short form, on the line behind their definitions.
pub static SHORT: [Case; 8] = [
    (
        b"(df f \"c\" (A B) 1 2 UINT (in) (out))",
        b"9 (define-ifield (name f) (comment \"c\") (attrs A B) (start 1) (length 2) (mode UINT) (encode (in)) (decode (out)));",
    ),
    (
        b"(dnf f \"c\" (A B) 1 2)",
        b"9 (define-ifield (name f) (comment \"c\") (attrs A B) (start 1) (length 2));",
    ),
    (
        b"(dnmf f \"c\" (A) UINT (g h) (in) (out))",
        b"9 (define-multi-ifield (name f) (comment \"c\") (attrs A) (mode UINT) (subfields g h) (insert (in)) (extract (out)));",
    ),
    (
        b"(dnop o \"c\" (A) h f)",
        b"9 (define-operand (name o) (comment \"c\") (attrs A) (type h) (index f));",
    ),
    (
        b"(dnh r \"c\" (A) (register SI (16)) (keyword \"\" (x)) (keyword \"$\" (y)) (get set))",
        b"9 (define-hardware (name r) (comment \"c\") (attrs A) (type register SI (16)) (indices keyword \"\" (x)) (values keyword \"$\" (y)) (handlers get set));",
    ),
    (
        b"(dsh r \"c\" (A) (immediate UINT))",
        b"9 (define-hardware (name r) (comment \"c\") (attrs A) (type immediate UINT));",
    ),
    (
        b"(dni add \"c\" (A) \"add $rd\" (+ (f-op 1) rd) (set rd 1) ((unit u)))",
        b"9 (define-insn (name add) (comment \"c\") (attrs A) (syntax \"add $rd\") (format (+ (f-op 1) rd)) (semantics (set rd 1)) (timing (unit u)));",
    ),
    (
        b"(dnmi inc \"c\" (A) \"inc $rd\" (emit add (rd 1)))",
        b"9 (define-macro-insn (name inc) (comment \"c\") (attrs A) (syntax \"inc $rd\") (expansions (emit add (rd 1))));",
    ),
];
